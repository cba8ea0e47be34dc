//! A vector that contracts see as a list.
ghost use Rattle.std.specs.Prelude.{◌≡◌, [], ◌∷◌, ◌++◌, length, OnOk, OnErr};

use crate::memory::OutOfMemory;
use std::marker::Model;

/// A `Vec` that contracts see as the list of its items.
#[derive(Debug, Drop)]
pub struct Items<T> {
    items: Vec<T>,
}

impl<T> Model for Items<T> {
    ghost use Rattle.std.specs.Prelude.{List};
    ghost use Rattle.std.specs.Coded.{coded_list};

    ghost Value = { List T };

    ghost coded = { coded_list T.code };

    ghost view = { λ it. it.items.items };
}

impl<T> Items<T> {
    ghost use Rattle.std.specs.Borrow.{Lends, sem};
    ghost use Rattle.res_base.specs.contracts.items.Items.{the_row};
    ghost use Rattle.res_base.specs.Rows.{vec_row};

    pub fn of(items: Vec<T>) -> Items<T>
        ensures { result ≡ items.items }
    {
        Items { items }
    }

    pub fn as_slice(&self) -> &[T]
        ensures { result.now ≡ self.now }
    {
        self.items.as_slice()
    }

    /// Lends the vector: what it holds when the loan ends is the list from then on.
    pub fn as_vec_mut(&mut self) -> &mut Vec<T>
        ensures* writes_back { sem 𝓛 (Lends (the_row T.row) (vec_row T.row) self.entry result (λ v. v.items)) }
        ensures now { result.now.items ≡ self.old }
    {
        &mut self.items
    }

    pub fn len(&self) -> usize
        ensures { result ≡ length self.now }
    {
        self.items.len()
    }
}

impl<T: Drop> Items<T> {
    pub fn push(&mut self, item: T) -> Result<(), OutOfMemory>
        ensures ok { OnOk result (self.new ≡ self.old ++ item ∷ []) }
        ensures err { OnErr result (self.new ≡ self.old) }
    {
        self.items.push(item)?;
        Ok(())
    }
}
