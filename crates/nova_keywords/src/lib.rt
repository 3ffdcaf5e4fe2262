//! That the keywords of columns' names are the keywords of scripts.
#![tactic(auto)]

ghost use Rattle.nova_keywords.specs.Agreement.{KeywordsAgree};

/// A text is a keyword to the names of columns exactly where it is one to the scanner of scripts.
pub fn keywords_agree()
    ensures { KeywordsAgree }
{}
