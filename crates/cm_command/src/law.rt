//! What words ask for, at most. The function does nothing: what it ensures is the law.

ghost use Rattle.cm_command.specs.Grammar.{AskForOne};

/// Words ask for one command at most.
pub fn words_ask_for_one()
    ensures { AskForOne }
{}
