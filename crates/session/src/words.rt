// The words of the command line.
ghost use Rattle.std.specs.Prelude.{◌≡◌, List, ℕ, map, Some, None, MatchOption, string_bytes};
ghost use Rattle.session.specs.Words.{allowed_count, spelled_number, flat_request, run_request, assembly_request};
ghost use Rattle.session.specs.Named.{flat_named, request_named, assembly_named};

use gc_text::read_dec;

/// The most steps that `flat` makes.
pub const MOST_STEPS: u64 = 1_000_000_000;

/// What the words `flat IMAGE COUNT` ask for.
#[derive(Clone, Copy)]
pub struct FlatWords<'a> {
    /// The name of the image's file.
    pub image: &'a str,
    /// The most steps that are made.
    pub count: u64,
}

fn read_count(text: &str) -> Option<u64>
    ensures { result ≡ allowed_count (spelled_number text.now) }
{
    match read_dec(text.as_bytes()) {
        Some(n) if n <= MOST_STEPS => Some(n),
        _ => None,
    }
}

impl<'a> FlatWords<'a> {
    /// The words after the program's name, where they are `flat`, a name and a number of steps.
    pub fn read(words: &'a [String]) -> Option<FlatWords<'a>>
        ensures { MatchOption result (flat_request (map string_bytes words.now) ≡ None)
            (λ w. flat_request (map string_bytes words.now) ≡ Some (flat_named w)) }
    {
        match words {
            [form, image, count] if form.as_str() == "flat" => Some(FlatWords {
                image: image.as_str(),
                count: read_count(count.as_str())?,
            }),
            _ => None,
        }
    }
}

/// What the words `run CONFIG IMAGE SCRIPT` name: three files.
#[derive(Clone, Copy)]
pub struct RunWords<'a> {
    pub config: &'a str,
    pub image: &'a str,
    pub script: &'a str,
}

impl<'a> RunWords<'a> {
    /// The words after the program's name, where they are `run` and three names.
    pub fn read(words: &'a [String]) -> Option<RunWords<'a>>
        ensures { MatchOption result (run_request (map string_bytes words.now) ≡ None)
            (λ w. run_request (map string_bytes words.now) ≡ Some (request_named w)) }
    {
        match words {
            [form, config, image, script] if form.as_str() == "run" => Some(RunWords {
                config: config.as_str(),
                image: image.as_str(),
                script: script.as_str(),
            }),
            _ => None,
        }
    }
}

/// What the words `asm SOURCE IMAGE` name: two files.
#[derive(Clone, Copy)]
pub struct AssemblyWords<'a> {
    pub source: &'a str,
    pub image: &'a str,
}

impl<'a> AssemblyWords<'a> {
    /// The words after the program's name, where they are `asm` and two names.
    pub fn read(words: &'a [String]) -> Option<AssemblyWords<'a>>
        ensures { MatchOption result (assembly_request (map string_bytes words.now) ≡ None)
            (λ w. assembly_request (map string_bytes words.now) ≡ Some (assembly_named w)) }
    {
        match words {
            [form, source, image] if form.as_str() == "asm" => Some(AssemblyWords {
                source: source.as_str(),
                image: image.as_str(),
            }),
            _ => None,
        }
    }
}
