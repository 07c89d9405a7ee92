ghost use Rattle.std.specs.Prelude.{◌≡◌, [], IfNone, IfSome};
ghost use Rattle.std.specs.Option.{option_copied};
ghost use Rattle.std.specs.List.Sorted.{IsStrictlySortedBy};
ghost use Rattle.std.specs.Map.{keys_of};
ghost use Rattle.ordered_list.specs.Merged.{IsTurn};

use std::cmp::Ordering;
use std::marker::Model;

/// Two lists of entries, each by ascending key, gone through together: a turn for each key of either.
#[derive(Drop)]
pub struct Merge<'a, K: Ord, V> {
    mine: &'a [(K, V)],
    yours: &'a [(K, V)],
}

impl<'a, K: Ord, V> Model for Merge<'a, K, V> {
    ghost use Rattle.std.specs.Prelude.{List};
    ghost use Rattle.std.specs.List.Sorted.{IsStrictlySortedBy};
    ghost use Rattle.std.specs.Map.{keys_of};

    ghost Value = { List (K × V) × List (K × V) };

    ghost view = { λ merge. (merge.mine.now, merge.yours.now) };

    ghost invariant = { λ merge. IsStrictlySortedBy K.cmp (keys_of merge.mine.now)
        × IsStrictlySortedBy K.cmp (keys_of merge.yours.now) };
}

impl<'a, K: Ord, V> Merge<'a, K, V> {
    /// Both lists from their first entries on. Copies nothing.
    pub fn new(mine: &'a [(K, V)], yours: &'a [(K, V)]) -> Merge<'a, K, V>
        requires mine { IsStrictlySortedBy K.cmp (keys_of mine.now) }
        requires yours { IsStrictlySortedBy K.cmp (keys_of yours.now) }
        ensures { result ≡ (mine.now, yours.now) }
    {
        Merge { mine, yours }
    }

    /// The least key that is left, with what each list has there, or None once both are gone through. Takes
    /// a comparison at most, and no memory.
    pub fn next(&mut self) -> Option<(&'a K, Option<&'a V>, Option<&'a V>)>
        ensures end { IfNone result (self.old ≡ ([], [])) }
        ensures turn { IfSome result (λ turn. IsTurn K.cmp self.old.0 self.old.1 self.new.0 self.new.1
            turn.0.now (option_copied turn.1) (option_copied turn.2)) }
    {
        match (self.mine.split_first(), self.yours.split_first()) {
            (None, None) => None,
            (Some((x, mine)), None) => {
                self.mine = mine;
                Some((&x.0, Some(&x.1), None))
            }
            (None, Some((y, yours))) => {
                self.yours = yours;
                Some((&y.0, None, Some(&y.1)))
            }
            (Some((x, mine)), Some((y, yours))) => match x.0.cmp(&y.0) {
                Ordering::Less => {
                    self.mine = mine;
                    Some((&x.0, Some(&x.1), None))
                }
                Ordering::Equal => {
                    self.mine = mine;
                    self.yours = yours;
                    Some((&x.0, Some(&x.1), Some(&y.1)))
                }
                Ordering::Greater => {
                    self.yours = yours;
                    Some((&y.0, None, Some(&y.1)))
                }
            },
        }
    }
}
