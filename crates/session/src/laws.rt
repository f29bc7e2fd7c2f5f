// The laws of this crate's definitions, each as the contract of a function that does nothing.
ghost use Rattle.std.specs.Prelude.{◌≤◌, ℕ};
ghost use Rattle.elf_image.specs.declared.image.Image.{Image};
ghost use Rattle.rv_step.specs.Run.{flat_run};
ghost use Rattle.session.specs.Replayed.{ScriptsAreReplayed};
ghost use Rattle.session.specs.Run.{flat_start};

/// What the events of a script note is the instruction set's over flat memory, from the machine's start to its end.
pub fn scripts_are_replayed()
    ensures { ScriptsAreReplayed }
{}

/// A run over flat memory makes no step more than it may.
pub fn steps_are_counted()
    ensures { (image : Image) (count : ℕ) → (flat_run (flat_start image) count).steps ≤ count }
{}
