ghost use Rattle.std.specs.Prelude.{◌≡◌, [], ◌∷◌};
ghost use Rattle.std.specs.Iterator.{YieldsFirstBy, item_count};

use std::iter::FusedIterator;
use std::marker::Model;

// A child of a branch with its summary, and those behind it.
#[cycle(chain)]
#[derive(Drop)]
pub(crate) struct Child<'a, M: Copy> {
    index: u32,
    summary: M,
    behind: Option<&'a Child<'a, M>>,
}

impl<'a, M: Copy> Model for Child<'a, M> {
    ghost use Rattle.std.specs.Prelude.{ℕ, List, ◌∷◌, length};
    ghost use Rattle.std.specs.Coded.{coded×, coded_list, coded_ℕ};
    ghost use Rattle.gen_trie.specs.Children.{from};

    ghost Value = { List (ℕ × M) };

    ghost coded = { coded_list (coded× coded_ℕ M.code) };

    ghost view = { λ child. (child.index, child.summary) ∷ from child.behind };

    ghost size = { λ children. length children };
}

impl<'a, M: Copy> Child<'a, M> {
    pub(crate) fn new(index: u32, summary: M, behind: Children<'a, M>) -> Child<'a, M>
        ensures { result ≡ (index, summary) ∷ behind.entry }
    {
        Child {
            index,
            summary,
            behind: behind.first,
        }
    }
}

/// The indices of a branch's children with the summary of each, by ascending index. Each stands in a call of its own that
/// waits for the summary of the branch, so they take no memory.
#[derive(Drop)]
pub struct Children<'a, M: Copy> {
    first: Option<&'a Child<'a, M>>,
}

impl<'a, M: Copy> Model for Children<'a, M> {
    ghost use Rattle.std.specs.Prelude.{ℕ, List};
    ghost use Rattle.std.specs.Coded.{coded×, coded_list, coded_ℕ};
    ghost use Rattle.gen_trie.specs.Children.{from};

    ghost Value = { List (ℕ × M) };

    ghost coded = { coded_list (coded× coded_ℕ M.code) };

    ghost view = { λ children. from children.first };
}

impl<'a, M: Copy> Children<'a, M> {
    pub(crate) fn none() -> Children<'a, M>
        ensures { result ≡ [] }
    {
        Children { first: None }
    }

    pub(crate) fn beginning_with(child: &'a Child<'a, M>) -> Children<'a, M>
        ensures { result ≡ child.now }
    {
        Children { first: Some(child) }
    }
}

impl<'a, M: Copy> Iterator for Children<'a, M> {
    type Item = (u32, M);

    ghost next_gives = { YieldsFirstBy (λ item. item) (λ children. children) };

    ghost remaining = { item_count (λ children. children) };

    fn next(&mut self) -> Option<(u32, M)> {
        let child = self.first?;
        self.first = child.behind;
        Some((child.index, child.summary))
    }
}

impl<M: Copy> FusedIterator for Children<'_, M> {}
