//! A proof that each valid action has exactly one spelling. The function here does nothing: its
//! contract states what is proved.

ghost use Rattle.std.specs.Prelude.{◌≡◌, ◌↔◌, ℕ, List, Some};
ghost use Rattle.plan_text.specs.ParsedActions.{ParsedAction, parse_action, spelling, IsValidParsedAction};

/// Proves that each valid action has exactly one spelling:
///
/// - The spelling of a valid action parses as this action.
/// - If a text parses as an action, the action is valid and the text is its spelling.
pub fn spelling_is_canonical()
    ensures { (text : List ℕ) (parsed_action : ParsedAction)
        → (parse_action text ≡ Some parsed_action) ↔ (IsValidParsedAction parsed_action × (text ≡ spelling parsed_action)) }
{}
