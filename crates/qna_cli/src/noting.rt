// A gate that notes the jobs that parties come to.

use qna_edges::{Gate, Place};
use std::alloc::Global;
use std::sync::atomic::{AtomicU64, Ordering};
use std::test::Fail;

/// The fronts and items of the jobs that parties come to, in the order in which they come.
#[derive(Drop)]
pub(crate) struct Noting {
    count: AtomicU64,
    fronts: Vec<AtomicU64>,
    nodes: Vec<AtomicU64>,
}

impl Gate for Noting {
    fn at(&self, _party: u16, place: Place) {
        if let Place::BeforeJob { front, node } = place {
            let next = self.count.fetch_add(1, Ordering::SeqCst) as usize;
            if let (Some(fronts), Some(nodes)) = (self.fronts.get(next), self.nodes.get(next)) {
                fronts.store(front, Ordering::SeqCst);
                nodes.store(u64::from(node), Ordering::SeqCst);
            }
        }
    }
}

impl Noting {
    /// A gate that can note so many jobs.
    pub(crate) fn new(alloc: Global, notes: usize) -> Result<Noting, Fail> {
        let mut fronts = Vec::new(alloc);
        let mut nodes = Vec::new(alloc);
        for _ in 0..notes {
            fronts.push(AtomicU64::new(0))?;
            nodes.push(AtomicU64::new(0))?;
        }
        Ok(Noting {
            count: AtomicU64::new(0),
            fronts,
            nodes,
        })
    }

    /// How many jobs were come to.
    pub(crate) fn count(&self) -> u64 {
        self.count.load(Ordering::SeqCst)
    }

    /// How many of them were noted of an item at a front.
    pub(crate) fn times(&self, front: u64, node: u64) -> usize {
        self.fronts
            .iter()
            .zip(self.nodes.iter())
            .filter(|(f, n)| {
                f.load(Ordering::SeqCst) == front && n.load(Ordering::SeqCst) == node
            })
            .count()
    }

    /// Whether one was noted at a front.
    pub(crate) fn has_front(&self, front: u64) -> bool {
        self.fronts
            .iter()
            .any(|noted| noted.load(Ordering::SeqCst) == front)
    }
}
