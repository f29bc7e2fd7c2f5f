// The laws of sources, each as the contract of a function that does nothing.
ghost use Rattle.rv_asm.specs.Layout.{BlanksAndCommentsAreFree};
ghost use Rattle.rv_asm.specs.Spellings.{EachNameIsTheRegisters, SpellingsAreFree};

/// The words of a source are those of what its lines say: blanks at their ends and around commas, and comments, change
/// nothing.
pub fn blanks_and_comments_are_free()
    ensures { BlanksAndCommentsAreFree }
{}

/// Operands that are spelled apart and mean the same give the same words: a register's names, a number in decimal and in
/// hexadecimal, a control and status register's name and number, alone and in distances and addresses.
pub fn spellings_are_free()
    ensures words { SpellingsAreFree }
    ensures registers { EachNameIsTheRegisters }
{}
