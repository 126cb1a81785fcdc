//! The laws of answers.
ghost use Rattle.std.specs.Prelude.{◌≡◌, ◌++◌, ◌∷◌, [], ℕ, Bool, List, false, true, is_some, map};
ghost use Rattle.std.specs.List.{flat_map, list_any};
ghost use Rattle.text_parts.specs.Text.{texts_of};
ghost use Rattle.kmod_query.specs.AnswerOf.{answer_of};
ghost use Rattle.kmod_query.specs.Early.{is_early, is_symbolless, loads};
ghost use Rattle.kmod_query.specs.Facts.{Facts};
ghost use Rattle.kmod_query.specs.Lines.{is_live, load_line};
ghost use Rattle.kmod_query.specs.Loading.{answer_names, is_barred, load};
ghost use Rattle.kmod_query.specs.Objects.{Object, by_name};
ghost use Rattle.kmod_query.specs.Order.{StandInOrder, is_done};
ghost use Rattle.kmod_query.specs.Paths.{own_of};
ghost use Rattle.kmod_query.specs.Probes.{first_tasks, probe_list, step_limit};
ghost use Rattle.kmod_query.specs.States.{status_in};
ghost use Rattle.kmod_query.specs.World.{facts_of};
ghost use Rattle.kmod_query.specs.declared.query.Ask.TheVariants.{ShowDepends};
ghost use Rattle.kmod_query.specs.declared.query.Query.{Query};
ghost use Rattle.kmod_query.specs.declared.world.World.{World};

/// What `--show-depends` without `--remove` answers does not depend on the states of modules: worlds with the same
/// configuration, the same texts, the same folder and the same files at paths answer the same.
pub fn show_depends_ignores_states()
    ensures { (one other : World) (query : Query) → query.ask ≡ ShowDepends
        → one.conf.now ≡ other.conf.now → one.index.now ≡ other.index.now → one.directory.now ≡ other.directory.now
        → one.paths.now ≡ other.paths.now → own_of one.own ≡ own_of other.own
        → answer_of one query ≡ answer_of other query }
{}

/// Of the states of modules a load or a look-up asks only which are live: worlds with the same configuration, texts, folder,
/// files at paths and live modules answer the same.
pub fn only_live_modules_count()
    ensures { (one other : World) (query : Query) → loads query.ask ≡ true
        → one.conf.now ≡ other.conf.now → one.index.now ≡ other.index.now → one.directory.now ≡ other.directory.now
        → one.paths.now ≡ other.paths.now → own_of one.own ≡ own_of other.own
        → ((name : List ℕ) → is_live (status_in one.states.now name) ≡ is_live (status_in other.states.now name))
        → answer_of one query ≡ answer_of other query }
{}

/// Under `--all`, but for removals, the lines are those of each name alone, in turn; so are the failures, and the status is 1
/// if it is so for a name.
pub fn names_are_answered_in_turn()
    ensures lines { (facts : Facts) (query : Query) (words : List (List ℕ)) → query.all ≡ true
        → (answer_names facts query words).output
        ≡ flat_map (λ word. (answer_names facts query (word ∷ [])).output) words }
    ensures failures { (facts : Facts) (query : Query) (words : List (List ℕ)) → query.all ≡ true
        → (answer_names facts query words).failures
        ≡ flat_map (λ word. (answer_names facts query (word ∷ [])).failures) words }
    ensures status { (facts : Facts) (query : Query) (words : List (List ℕ)) → query.all ≡ true
        → (answer_names facts query words).failed
        ≡ list_any (λ word. (answer_names facts query (word ∷ [])).failed) words }
{}

/// A module that is asked for is not loaded, nor what goes with it, if it is on the blacklist and was found by an alias, or
/// is on it under `--use-blacklist`. Of needs and soft items of other modules it says nothing.
pub fn blacklisted_modules_are_not_loaded()
    ensures alias { (facts : Facts) (query : Query) (parameters : List ℕ) (object : Object)
        → facts.is_blacklisted object.name ≡ true → is_some object.alias ≡ true
        → (load facts query parameters object).output ≡ [] }
    ensures name { (facts : Facts) (query : Query) (parameters : List ℕ) (object : Object)
        → facts.is_blacklisted object.name ≡ true → query.use_blacklist ≡ true
        → (load facts query parameters object).output ≡ [] }
{}

/// What a module needs hard stands before an occurrence of it. What `--show-depends` without `--remove` shows of a module
/// that is not barred are the lines of its probe list, one after another. In that list stand the modules that it needs
/// hard, in the order of modules.dep turned round, and then the module; others may stand before, between and after them.
/// It is said of a list that is done within the steps.
pub fn hard_needs_come_first()
    ensures order { (facts : Facts) (bare : Bool) (top : Object) → is_done facts step_limit (top ∷ []) (first_tasks facts bare top) ≡ true
        → StandInOrder (map by_name (facts.needs top.name) ++ top ∷ []) (probe_list facts bare top) }
    ensures lines { (facts : Facts) (query : Query) (parameters : List ℕ) (top : Object)
        → query.ask ≡ ShowDepends → is_barred facts query top ≡ false
        → (load facts query parameters top).output
        ≡ flat_map (load_line facts query.ignore_commands parameters top) (probe_list facts query.ignore_commands top) }
{}

/// An answer that is early is the same whatever modules.alias and modules.symbols say: worlds with the same configuration,
/// states, folder, files at paths, modules.dep and texts of built-in modules answer it the same.
pub fn later_texts_do_not_count()
    ensures { (one other : World) (query : Query)
        → is_early (facts_of one) query (texts_of query.words.now) ≡ true
        → one.conf.now ≡ other.conf.now → one.states.now ≡ other.states.now → one.directory.now ≡ other.directory.now
        → one.paths.now ≡ other.paths.now → own_of one.own ≡ own_of other.own
        → one.index.now.dependencies ≡ other.index.now.dependencies
        → one.index.now.builtin_names ≡ other.index.now.builtin_names
        → one.index.now.builtin_aliases ≡ other.index.now.builtin_aliases
        → answer_of one query ≡ answer_of other query }
{}

/// If names are resolved, and none of them is that of a symbol, the answer is the same whatever modules.symbols says: worlds
/// with the same configuration, states, folder, files at paths and other texts answer it the same.
pub fn symbols_do_not_count()
    ensures { (one other : World) (query : Query)
        → is_symbolless query (texts_of query.words.now) ≡ true
        → one.conf.now ≡ other.conf.now → one.states.now ≡ other.states.now → one.directory.now ≡ other.directory.now
        → one.paths.now ≡ other.paths.now → own_of one.own ≡ own_of other.own
        → one.index.now.dependencies ≡ other.index.now.dependencies
        → one.index.now.aliases ≡ other.index.now.aliases
        → one.index.now.builtin_names ≡ other.index.now.builtin_names
        → one.index.now.builtin_aliases ≡ other.index.now.builtin_aliases
        → answer_of one query ≡ answer_of other query }
{}
