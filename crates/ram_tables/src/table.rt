// Tables: what stands at each of so many numbers.
ghost use Rattle.std.specs.Prelude.{◌≡◌, ℕ, ◌+◌, ◌<◌, ◌≤◌, true, false, length, Some as Just, None as Nothing, MatchOption, slice_set};
ghost use Rattle.std.specs.Option.{option_copied};
ghost use Rattle.ram_tables.specs.Tables.{row, count, Says, FirstThat};

use std::marker::Model;

// A row for each number below N, and nothing past them.
#[derive(Drop)]
pub(super) struct Table<T, const N: usize> {
    rows: [Option<T>; N],
}

// A contract sees the rows alone, as a list.
impl<T, const N: usize> Model for Table<T, N> {
    ghost use Rattle.std.specs.Prelude.{◌≡◌, List, Option, length};
    ghost use Rattle.std.specs.Coded.{coded_list, coded_option};

    ghost Value = { List (Option T) };

    ghost coded = { coded_list (coded_option T.code) };

    ghost view = { λ t. t.rows };

    ghost invariant = { λ t. length t.rows ≡ N };
}

impl<T: Drop, const N: usize> Table<T, N> {
    // No row is taken.
    pub(super) fn new() -> Self
        ensures free { (k : ℕ) → row result k ≡ Nothing }
        ensures long { length result ≡ N }
    {
        Table {
            rows: Default::default(),
        }
    }

    // What stands at a number.
    pub(super) fn row(&self, n: usize) -> Option<&T>
        ensures { option_copied result ≡ row self.now n }
    {
        self.rows.get(n)?.as_ref()
    }

    // Takes a row or frees it; past the table there is none.
    pub(super) fn put(&mut self, n: usize, value: Option<T>)
        ensures { self.new ≡ slice_set self.old n value }
    {
        if n < N {
            self.rows[n] = value;
        }
    }

    // The first row that is free.
    pub(super) fn vacant(&self) -> Option<usize>
        ensures { MatchOption result (N ≤ count self.now) (λ k. (k < N) × (row self.now k ≡ Nothing) × (count self.now < N)) }
    {
        self.rows.iter().position(|row| row.is_none())
    }

    // The first number from `first` on whose row passes a test. The rows before it are not looked at.
    pub(super) fn find<F: Fn(usize, &T) -> bool>(&self, first: usize, test: F) -> Option<usize>
        requires { F.IsAlwaysCallable test }
        ensures { FirstThat self.now (λ n x. (first ≤ n) × Says F.Fn test n x true) (λ n x. first ≤ n → Says F.Fn test n x false) result }
    {
        let start = first.min(N);
        let rows = &self.rows[..];
        for (k, row) in rows[start..].iter().enumerate() {
            let Some(row) = row else {
                continue;
            };
            let n = start + k;
            if test(n, row) {
                return Some(n);
            }
        }
        None
    }
}
