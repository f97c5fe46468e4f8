//! A law over what the commands write, on a function with an empty body.

ghost use Rattle.xls_command.specs.Laws.{RemadeDumps};

/// What `remake` writes of a stream has the dump that the stream has.
pub fn remade_dumps()
    ensures { RemadeDumps }
{}
