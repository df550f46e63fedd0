//! What holds of all columns. The function does nothing when it runs: its contract is the law.

ghost use Rattle.std.specs.Prelude.{◌≡◌};
ghost use Rattle.std.specs.List.{AllByRecursion};
ghost use Rattle.nr_columns.specs.Columns.{laid_columns};
ghost use Rattle.nr_columns.specs.View.{columns_in};

use crate::columns::Columns;
use nr_triedef::Store;

/// Columns are read back from their trie entries, and so are those of each checkpoint.
pub fn laid_laws<S: Store>(columns: &Columns<S>)
    ensures here { columns_in (laid_columns columns.now.columns) ≡ columns.now.columns }
    ensures marks { AllByRecursion (λ k. columns_in (laid_columns k) ≡ k) columns.now.marks }
{
    let _ = &columns.store;
}
