//! The operations of a history, and what a search for reasons looks up in them.
use crate::beginning::Beginning;
use crate::operations::operations_of;
use snap_judge::{Action, Operation};
use std::alloc::{AllocError, Global};
use std::collections::HashMap;

/// A word and a value that an update sets it to.
#[derive(Clone, Copy, PartialEq, Eq, Hash)]
struct Setting {
    word: u64,
    value: u64,
}

/// The operations in the order of their calls; which of them alone sets a word to a value, if one
/// alone does; the updates of each word; and for each operation the scans that saw it.
#[derive(Drop)]
pub struct Graph<'a> {
    pub operations: Vec<Operation<'a>>,
    setters: HashMap<Setting, Option<usize>>,
    pub updates: Vec<Vec<usize>>,
    pub seen_by: Vec<Vec<usize>>,
}

/// Where a value in a word comes from: from the beginning, from one operation alone, from none, or,
/// if more than one may have set it, from an unknown one.
#[derive(Clone, Copy)]
pub enum Origin {
    Beginning,
    Update(usize),
    Nowhere,
    Unclear,
}

/// Returns as many empty lists.
fn lists(alloc: Global, count: usize) -> Result<Vec<Vec<usize>>, AllocError> {
    let mut lists = Vec::new(alloc);
    for _ in 0..count {
        lists.push(Vec::new(alloc))?;
    }
    Ok(lists)
}

/// Appends a number to the list at a place, if there is one.
fn add(lists: &mut Vec<Vec<usize>>, place: usize, number: usize) -> Result<(), AllocError> {
    if let Some(list) = lists.get_mut(place) {
        list.push(number)?;
    }
    Ok(())
}

impl<'a> Graph<'a> {
    /// Returns the graph of a history.
    ///
    /// # Errors
    ///
    /// `AllocError` where memory runs out.
    pub fn of(alloc: Global, history: &Beginning<'a>) -> Result<Graph<'a>, AllocError> {
        let operations = operations_of(alloc, history.shape.n() as usize, history.events)?;
        let seen_by = lists(alloc, operations.len())?;
        let updates = lists(alloc, history.shape.w() as usize)?;
        let mut graph = Graph {
            operations,
            setters: HashMap::new(alloc),
            updates,
            seen_by,
        };
        graph.enter_updates()?;
        graph.enter_scans()?;
        Ok(graph)
    }

    /// Returns the word and the value that the operation at `place` sets, if it is an update.
    fn setting(&self, place: usize) -> Option<Setting> {
        let Some(operation) = self.operations.get(place) else {
            return None;
        };
        match &operation.action {
            Action::Sets { word, value } => Some(Setting {
                word: *word,
                value: *value,
            }),
            Action::Sees(_) => None,
        }
    }

    /// Notes that the operation at a place sets a word to a value.
    fn enter_update(&mut self, place: usize, setting: Setting) -> Result<(), AllocError> {
        let alone = match self.setters.get(&setting) {
            Some(_) => None,
            None => Some(place),
        };
        self.setters.insert(setting, alone)?;
        add(
            &mut self.updates,
            setting.word.wrapping_sub(1) as usize,
            place,
        )
    }

    /// Notes all updates.
    fn enter_updates(&mut self) -> Result<(), AllocError> {
        for place in 0..self.operations.len() {
            if let Some(setting) = self.setting(place) {
                self.enter_update(place, setting)?;
            }
        }
        Ok(())
    }

    /// Returns where a value in the word at a place comes from.
    pub fn origin(&self, word: usize, value: u64) -> Origin {
        let setting = Setting {
            word: (word as u64).wrapping_add(1),
            value,
        };
        match self.setters.get(&setting) {
            None => if value == 0 {
                Origin::Beginning
            } else {
                Origin::Nowhere
            },
            Some(Some(place)) => if value == 0 {
                Origin::Unclear
            } else {
                Origin::Update(*place)
            },
            Some(None) => Origin::Unclear,
        }
    }

    /// Returns the operation that is seen in the word at a place of the view of the scan at `scan`.
    fn seen(&self, scan: usize, word: usize) -> Option<usize> {
        let Some(operation) = self.operations.get(scan) else {
            return None;
        };
        let Action::Sees(view) = &operation.action else {
            return None;
        };
        let Some(value) = view.get(word) else {
            return None;
        };
        match self.origin(word, *value) {
            Origin::Update(place) => Some(place),
            _ => None,
        }
    }

    /// Notes which updates the scan at a place saw.
    fn enter_scan(&mut self, scan: usize) -> Result<(), AllocError> {
        for word in 0..self.updates.len() {
            if let Some(place) = self.seen(scan, word) {
                add(&mut self.seen_by, place, scan)?;
            }
        }
        Ok(())
    }

    /// Notes which updates all scans saw.
    fn enter_scans(&mut self) -> Result<(), AllocError> {
        for scan in 0..self.operations.len() {
            self.enter_scan(scan)?;
        }
        Ok(())
    }
}
