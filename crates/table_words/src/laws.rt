//! What is true of every run.
ghost use Rattle.std.specs.Prelude.{◌≡◌, List, fold};
ghost use Rattle.table_words.specs.Endings.{behind, ending_of_lines};
ghost use Rattle.table_words.specs.declared.ending.Ending.{Ending};
ghost use Rattle.table_words.specs.declared.ending.Ending.TheVariants.{Done};

/// Lines that are taken one after another, each behind those before it, end as the first of them that was refused.
pub fn the_first_refusal_counts()
    ensures { (endings : List Ending) → fold behind Done endings ≡ ending_of_lines endings }
{}
