//! Laws of the command line.
ghost use Rattle.std.specs.Prelude.{◌≡◌, ◌≢◌, ◌+◌, ◌<◌, ℕ, true, None, Ok, Err, List as list, [], ◌++◌, length};
ghost use Rattle.std.specs.List.{list_all};
ghost use Rattle.cx_options.specs.declared.answer.Options.{Options as options_type};
ghost use Rattle.cx_options.specs.declared.fault.WordKind.TheVariants.{MissingValue};
ghost use Rattle.cx_options.specs.Command.{Refused, command, options_of};
ghost use Rattle.cx_options.specs.Settings.{is_path};

/// Words that are all paths are the paths, in order, and all else is as without words.
pub fn paths_are_in_order()
    ensures { (words : list (list ℕ)) → list_all is_path words ≡ true
        → command words ≡ Ok (record (options_of []) { paths = words }) }
{}

/// A refused word is one of the words. It stays the refused one whatever follows, unless its
/// argument is missing: then it is the last word.
pub fn a_refused_word_stays()
    ensures within { (words : list (list ℕ)) (refused : Refused) → command words ≡ Err refused
        → refused.word < length words }
    ensures stays { (words more : list (list ℕ)) (refused : Refused) → command words ≡ Err refused
        → refused.kind ≢ MissingValue → command (words ++ more) ≡ Err refused }
    ensures missing { (words : list (list ℕ)) (refused : Refused) → command words ≡ Err refused
        → refused.kind ≡ MissingValue → length words ≡ refused.word + 1 }
{}

/// Where findings of severity style are switched on, those of severity warning are.
pub fn style_includes_warning()
    ensures { (words : list (list ℕ)) (o : options_type) → command words ≡ Ok o
        → o.style ≡ true → o.warning ≡ true }
{}

/// All configurations are looked at, or so many, and never both.
pub fn configurations_have_one_bound()
    ensures { (words : list (list ℕ)) (o : options_type) → command words ≡ Ok o
        → o.force ≡ true → o.max_configs ≡ None }
{}
