ghost use Rattle.std.specs.Prelude.{◌≡◌, [], IfNone, IfSome};
ghost use Rattle.ordered_list.specs.Items.{IsTaken};

use std::marker::Model;

// Two lists of items gone through together, of two first items the lesser one first.
#[derive(Drop)]
pub(crate) struct ItemMerge<'a, T: Ord> {
    mine: &'a [T],
    yours: &'a [T],
}

impl<'a, T: Ord> Model for ItemMerge<'a, T> {
    ghost use Rattle.std.specs.Prelude.{List};

    ghost Value = { List T × List T };

    ghost view = { λ merge. (merge.mine.now, merge.yours.now) };
}

impl<'a, T: Ord> ItemMerge<'a, T> {
    // Both lists from their first items on.
    pub(crate) fn new(mine: &'a [T], yours: &'a [T]) -> ItemMerge<'a, T>
        ensures { result ≡ (mine.now, yours.now) }
    {
        ItemMerge { mine, yours }
    }

    // The next item. One that both lists have comes twice.
    pub(crate) fn next(&mut self) -> Option<&'a T>
        ensures end { IfNone result (self.old ≡ ([], [])) }
        ensures turn { IfSome result (λ item. IsTaken T.cmp self.old.0 self.old.1 self.new.0 self.new.1 item.now) }
    {
        match (self.mine.split_first(), self.yours.split_first()) {
            (None, None) => None,
            (Some((x, mine)), Some((y, _))) if x.cmp(y).is_lt() => {
                self.mine = mine;
                Some(x)
            }
            (_, Some((y, yours))) => {
                self.yours = yours;
                Some(y)
            }
            (Some((x, mine)), None) => {
                self.mine = mine;
                Some(x)
            }
        }
    }
}
