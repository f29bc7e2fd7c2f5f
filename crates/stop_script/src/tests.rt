// What no clause says: that the texts of the agreed tables are read as they stand here, where memory is ample.
use crate::{ScriptFault, Stop, read};
use gm_words::{Caches, Config, Until};
use std::alloc::Global;

// Any configuration: no form that is built asks for more of it.
fn configuration(alloc: Global) -> Config {
    Config {
        system_model: false,
        system_line: 64,
        system_ram: 65_536,
        system_budget: 1_000_000,
        cpu_period: 1_000,
        corebus_latency: 100,
        caches: Caches::new(Vec::new(alloc)),
        membus_latency: 100,
        mem_latency: 500,
        mem_queue: 4,
        uart_latency: 100,
        uart_chartime: 1_000,
        timer_latency: 100,
        timer_period: 1_000,
        exit_latency: 100,
        dma: None,
    }
}

// A stop as the tables have it, with its bytes lent.
#[derive(Clone, Copy)]
enum Said {
    Run(Until),
    Regs,
    Stats,
    StatsJson,
    Input(&'static [u8]),
    Trace(bool),
}

fn is_said(stop: &Stop, said: Said) -> bool {
    match (stop, said) {
        (Stop::Run(until), Said::Run(wanted)) => *until == wanted,
        (Stop::Regs, Said::Regs) => true,
        (Stop::Stats, Said::Stats) => true,
        (Stop::StatsJson, Said::StatsJson) => true,
        (Stop::Input(bytes), Said::Input(wanted)) => bytes.items() == wanted,
        (Stop::Trace(on), Said::Trace(wanted)) => *on == wanted,
        _ => false,
    }
}

fn are_said(stops: &[Stop], said: &[Said]) -> bool {
    stops.len() == said.len()
        && stops
            .iter()
            .zip(said)
            .all(|(stop, said)| is_said(stop, *said))
}

// Whether a text reads as these stops, or is refused at this line.
fn reads_as(alloc: Global, text: &[u8], wanted: Result<&[Said], u32>) -> bool {
    match (read(alloc, text, &configuration(alloc)), wanted) {
        (Ok(script), Ok(said)) => are_said(script.stops.items(), said),
        (Err(ScriptFault::Line { line }), Err(number)) => line == number,
        _ => false,
    }
}

/// The stop of `run end`.
const END: Said = Said::Run(Until::End);

/// Scripts, each with the stops that it says, or the line that is refused.
static SCRIPTS: [(&[u8], Result<&[Said], u32>); 98] = [
    // Empty lines, comments, and a last line without its line feed.
    (b"", Ok(&[])),
    (b"\n", Ok(&[])),
    (b"\n\n", Ok(&[])),
    (b"#", Ok(&[])),
    (b"run end", Ok(&[END])),
    (b"run end\n", Ok(&[END])),
    (b"regs\n", Ok(&[Said::Regs])),
    (b"run end\nregs\n", Ok(&[END, Said::Regs])),
    (b"regs\nrun end", Ok(&[Said::Regs, END])),
    (
        b"# a comment, \xff\xfe\r\n\nrun end\n\n#\nregs",
        Ok(&[END, Said::Regs]),
    ),
    // Numbers have one spelling, and are at most 2^62.
    (b"run insts 0\n", Ok(&[Said::Run(Until::Insts(0))])),
    (b"run tick 0\n", Ok(&[Said::Run(Until::Tick(0))])),
    (b"run tick 3000\n", Ok(&[Said::Run(Until::Tick(3_000))])),
    (
        b"run tick 4611686018427387904\n",
        Ok(&[Said::Run(Until::Tick(1 << 62))]),
    ),
    (
        b"run insts 4611686018427387904\n",
        Ok(&[Said::Run(Until::Insts(1 << 62))]),
    ),
    (b"run tick 4611686018427387905\n", Err(1)),
    (b"run insts 4611686018427387905\n", Err(1)),
    (b"run tick 9223372036854775808\n", Err(1)),
    (b"run insts 18446744073709551616\n", Err(1)),
    (
        b"run tick 100000000000000000000000000000000000000000\n",
        Err(1),
    ),
    (b"run tick 00\n", Err(1)),
    (b"run tick 01\n", Err(1)),
    (b"run insts 007\n", Err(1)),
    (b"run tick +1\n", Err(1)),
    (b"run tick -1\n", Err(1)),
    (b"run tick 1_000\n", Err(1)),
    (b"run tick 1e3\n", Err(1)),
    (b"run tick 1.0\n", Err(1)),
    (b"run tick 0x1\n", Err(1)),
    (b"run tick 0X1F\n", Err(1)),
    (b"run tick 1f\n", Err(1)),
    (b"run tick \xd9\xa1\n", Err(1)),
    (b"run tick 1 2\n", Err(1)),
    (b"run tick\n", Err(1)),
    (b"run tick \n", Err(1)),
    (b"run insts\n", Err(1)),
    // One space stands between words, and none elsewhere.
    (b" ", Err(1)),
    (b"\t\n", Err(1)),
    (b" # no comment", Err(1)),
    (b"run  end\n", Err(1)),
    (b"run  tick 1\n", Err(1)),
    (b"run tick  1\n", Err(1)),
    (b"run insts  1\n", Err(1)),
    (b"run\tend\n", Err(1)),
    (b"run tick\t1\n", Err(1)),
    (b"\tregs\n", Err(1)),
    (b"regs\t\n", Err(1)),
    (b" run end\n", Err(1)),
    (b"run end \n", Err(1)),
    (b"run tick 1 \n", Err(1)),
    (b"regs # no comment\n", Err(1)),
    // Lines end by a line feed alone.
    (b"run end\r\n", Err(1)),
    (b"\r\n", Err(1)),
    (b"regs\rregs\n", Err(1)),
    (b"regs\n\r", Err(2)),
    // Other words.
    (b"run\n", Err(1)),
    (b"run \n", Err(1)),
    (b"Run end\n", Err(1)),
    (b"REGS\n", Err(1)),
    (b"regs 1\n", Err(1)),
    (b"regsregs\n", Err(1)),
    (b"runend\n", Err(1)),
    (b"run end now\n", Err(1)),
    (b"run end\n\0", Err(2)),
    (b"\0\n", Err(1)),
    (b"\xff\n", Err(1)),
    (b"\xef\xbb\xbfregs\n", Err(1)),
    // The first line that is refused is told, comments and empty lines being counted.
    (b"run end\nregs\nregsregs\n", Err(3)),
    (b"\n\n# a comment\nrun stop\n", Err(4)),
    (b"regs\nrun\nreg\n", Err(2)),
    (b"run tick 01\nrun  end\n", Err(1)),
    (b"run  end\nrun tick 01\n", Err(1)),
    (b"#\nregs\n#\nrun\n#\n", Err(4)),
    // Statistics and the trace.
    (b"stats\nstats json\n", Ok(&[Said::Stats, Said::StatsJson])),
    (
        b"trace on\nrun end\ntrace off",
        Ok(&[Said::Trace(true), END, Said::Trace(false)]),
    ),
    (b"stats  json\n", Err(1)),
    (b"stats \n", Err(1)),
    (b"stats JSON\n", Err(1)),
    (b"trace\n", Err(1)),
    (b"trace yes\n", Err(1)),
    (b"trace on \n", Err(1)),
    (b"regs\ntrace offf\n", Err(2)),
    // Input: from 1 to 64 bytes in pairs of digits of either case.
    (b"input 00\n", Ok(&[Said::Input(b"\0")])),
    (b"input 48656C6c6f0A", Ok(&[Said::Input(b"Hello\n")])),
    (
        b"input 7a7A7a7A7a7A7a7A7a7A7a7A7a7A7a7A7a7A7a7A7a7A7a7A7a7A7a7A7a7A7a7A7a7A7a7A7a7A7a7A7a7A7a7A7a7A7a7A7a7A7a7A7a7A7a7A7a7A7a7A7a7A7a7A",
        Ok(&[Said::Input(b"zzzzzzzzzzzzzzzzzzzzzzzzzzzzzzzzzzzzzzzzzzzzzzzzzzzzzzzzzzzzzzzz")]),
    ),
    (
        b"input 7a7A7a7A7a7A7a7A7a7A7a7A7a7A7a7A7a7A7a7A7a7A7a7A7a7A7a7A7a7A7a7A7a7A7a7A7a7A7a7A7a7A7a7A7a7A7a7A7a7A7a7A7a7A7a7A7a7A7a7A7a7A7a7A7a\n",
        Err(1),
    ),
    (b"input\n", Err(1)),
    (b"input \n", Err(1)),
    (b"input 0\n", Err(1)),
    (b"input 000\n", Err(1)),
    (b"input 0g\n", Err(1)),
    (b"input 0x41\n", Err(1)),
    (b"input 41 42\n", Err(1)),
    (b"input  41\n", Err(1)),
    (b"Input 41\n", Err(1)),
    // These come later.
    (b"drain\n", Err(1)),
    (b"regs\nswitch atomic\n", Err(2)),
    (b"regs\ncheckpoint a\n", Err(2)),
];

#[test]
fn scripts_are_read_or_refused(rt: HostRuntime) {
    for (text, wanted) in SCRIPTS {
        assert!(rt; reads_as(rt.alloc(), text, wanted), "{text:?}");
    }
}

// A script has at most 256 lines, and a line at most 1024 bytes.
#[test]
fn long_scripts_are_read_or_refused(rt: HostRuntime) {
    let alloc = rt.alloc();
    let empty = [b'\n'; 257];
    // The word `regs` alone in line 256, and in line 257.
    let (mut last, mut past) = ([b'\n'; 260], [b'\n'; 260]);
    last[255..259].copy_from_slice(b"regs");
    past[256..].copy_from_slice(b"regs");
    // A second line of 1026 bytes; and one of 1024, which is ended by its line feed.
    let mut comment = [b'#'; 1_028];
    comment[1] = b'\n';
    let mut ended = comment;
    ended[1_026] = b'\n';
    let mut words = [b'0'; 1_025];
    words[..9].copy_from_slice(b"run tick ");
    let cases: [(&[u8], Result<&[Said], u32>); 11] = [
        (&empty[..256], Ok(&[])),
        (&empty, Err(257)),
        (&last[..259], Ok(&[Said::Regs])),
        (&last, Ok(&[Said::Regs])),
        (&past, Err(257)),
        (&comment[..1_026], Ok(&[])),
        (&comment[..1_027], Err(2)),
        (&comment, Err(2)),
        (&ended, Ok(&[])),
        (&words[..1_024], Err(1)),
        (&words, Err(1)),
    ];
    for (text, wanted) in cases {
        assert!(rt; reads_as(alloc, text, wanted), "{} bytes", text.len());
    }
}

#[test]
fn a_fault_is_one_line_of_text(rt: HostRuntime) {
    let alloc = rt.alloc();
    let cases = [
        (ScriptFault::Line { line: 12 }, "script line 12"),
        (ScriptFault::NoMemory, "memory"),
    ];
    for (fault, wanted) in cases {
        match format!(in alloc; "{fault}") {
            Ok(text) => assert_eq!(rt; text.as_str(), wanted),
            Err(_) => assert!(rt; false),
        }
    }
}
