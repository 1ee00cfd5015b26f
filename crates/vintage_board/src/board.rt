//! The board.

ghost use Rattle.std.specs.Prelude.{◌≡◌, ◌<◌, length, slice_get, replicate, Some, None, IfOk};
ghost use Rattle.vintage_board.specs.Board.{first_board, put_over, staged_or, with_shown, with_staged};

use qna_base::Memory;
use std::alloc::Global;
use std::marker::Model;
use std::sync::Arc;

/// The tables that are shown, one for each item, with their front, and those that are staged to be shown next. What is
/// staged isn't shown before it is put. Only `new` takes memory.
#[derive(Drop)]
pub struct Board<T> {
    front: u64,
    shown: Vec<Arc<T>>,
    staged: Vec<Option<Arc<T>>>,
}

impl<T> Model for Board<T> {
    ghost use Rattle.std.specs.Prelude.{◌≡◌, length};
    ghost use Rattle.std.specs.declared.sync.Arc.{Arc};
    ghost use Rattle.std.specs.declared.alloc.Global.{Global};
    ghost use Rattle.vintage_board.specs.Board.{BoardOf};

    ghost Value = { BoardOf (Arc T Global) };

    ghost view = { λ board. record {
      front = board.front;
      shown = board.shown.items;
      staged = board.staged.items;
    } };

    ghost invariant = { λ board. length board.staged.items ≡ length board.shown.items };
}

impl<T: Drop> Board<T> {
    /// The board that shows these tables, one for each item, at the front 0 and with nothing staged.
    pub fn new(alloc: Global, nodes: Vec<Arc<T>>) -> Result<Board<T>, Memory>
        ensures { IfOk result (λ board. board ≡ first_board nodes.items) }
    {
        let mut staged = Vec::with_capacity(alloc, nodes.len())?;
        for _ in 0..nodes.len() {
            staged.push(None)?;
        }
        Ok(Board {
            front: 0,
            shown: nodes,
            staged,
        })
    }

    /// The front of the shown tables: how many accepted inputs they are compiled from.
    pub fn front(&self) -> u64
        ensures { result ≡ self.now.front }
    {
        self.front
    }

    /// The shown table of an item.
    pub fn show(&self, node: u16) -> &Arc<T>
        requires { node < length self.now.shown }
        ensures { slice_get self.now.shown node ≡ Some result.now }
    {
        &self.shown[node as usize]
    }

    /// Stages a table of an item, in place of one that is staged for it.
    pub fn stage(&mut self, node: u16, table: Arc<T>)
        requires { node < length self.old.shown }
        ensures { self.new ≡ with_staged self.old node table }
    {
        self.staged[node as usize] = Some(table);
    }

    /// Shows all that is staged, at a later front. The table of an item with nothing staged stays.
    #[tactic(auto, using(crate::proofs::Putting::put_over_as_long))]
    pub fn put(&mut self, front: u64)
        requires { self.old.front < front }
        ensures shown { self.new ≡ with_shown self.old front }
        ensures items { length self.new.shown ≡ length self.old.shown }
    {
        put_all(&mut self.shown, &mut self.staged);
        self.front = front;
    }
}

/// Shows what is staged for each item.
fn put_all<T: Drop>(shown: &mut [Arc<T>], staged: &mut [Option<Arc<T>>])
    requires { length staged.old ≡ length shown.old }
    ensures shown { shown.new ≡ put_over staged.old shown.old }
    ensures staged { staged.new ≡ replicate (length shown.old) None }
{
    for item in 0..shown.len() {
        put_one(&mut shown[item], &mut staged[item]);
    }
}

/// Shows what is staged for one item.
fn put_one<T: Drop>(shown: &mut Arc<T>, staged: &mut Option<Arc<T>>)
    ensures shown { shown.new ≡ staged_or staged.old shown.old }
    ensures staged { staged.new ≡ None }
{
    if let Some(table) = staged.take() {
        *shown = table;
    }
}
