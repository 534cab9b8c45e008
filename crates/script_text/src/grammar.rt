ghost use Rattle.std.specs.Prelude.{◌≡◌, ◌↔◌, ℕ, List, Ok, Some, None};
ghost use Rattle.script_text.specs.declared.command.Command.{Command};
ghost use Rattle.script_text.specs.declared.script.Mode.{Mode};
ghost use Rattle.script_text.specs.Grammar.{words_command};
ghost use Rattle.script_text.specs.Says.{IsRemark, Says};

/// A law of the grammar, which runs nothing: the words of a line are read as a command exactly where they say it, as no command exactly
/// where they ask nothing, and they say one command at most.
pub fn grammar_law()
    ensures said { (mode : Mode) (words : List (List ℕ)) (command : Command)
        → (words_command mode words ≡ Ok (Some command)) ↔ Says mode words command }
    ensures remark { (mode : Mode) (words : List (List ℕ))
        → (words_command mode words ≡ Ok None) ↔ IsRemark words }
    ensures once { (mode : Mode) (words : List (List ℕ)) (one other : Command)
        → Says mode words one → Says mode words other → one ≡ other }
{}
