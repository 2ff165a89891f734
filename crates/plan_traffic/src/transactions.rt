//! The transactions of a traffic. Contracts see them as a list.

ghost use Rattle.std.specs.Prelude.{◌≡◌, ◌-◌, ◌≤◌, length, IfOk, Some};
ghost use Rattle.std.specs.List.{slice_get};
ghost use Rattle.std.specs.Option.{option_map};
ghost use Rattle.plan_traffic.specs.Accepted.{SuitSome};
ghost use Rattle.plan_traffic.specs.Inside.{traffic_items};
ghost use Rattle.plan_traffic.specs.Scripts.{script_of};

use crate::build::Item;
use axi_beats::NoMemory;
use manager_node::{Script, Txn, WriteByte};
use std::alloc::Global;
use std::marker::Model;

/// The transactions of all managers, at most 16,384, numbered from 1 in the order of their lines.
#[derive(Drop)]
pub struct Traffic {
    items: Vec<Item>,
}

impl Model for Traffic {
    ghost use Rattle.std.specs.Prelude.{List};
    ghost use Rattle.plan_traffic.specs.Traffic.{TrafficItem};

    ghost Value = { List TrafficItem };

    ghost use Rattle.plan_traffic.specs.Inside.{traffic_items};

    ghost view = { λ traffic. traffic_items traffic.items.items };

    ghost use Rattle.plan_traffic.specs.Accepted.{SuitSome};

    ghost invariant = { λ traffic. SuitSome (traffic_items traffic.items.items) };
}

impl Traffic {
    /// The traffic of these transactions.
    pub(crate) fn from_items(items: Vec<Item>) -> Traffic
        requires { SuitSome (traffic_items items.items) }
        ensures { result ≡ traffic_items items.items }
    {
        Traffic { items }
    }

    /// The transactions with their managers and bytes, as they are kept.
    pub(crate) fn items(&self) -> &[Item]
        ensures { traffic_items result.now ≡ self.now }
    {
        &self.items
    }

    /// The number of transactions.
    pub fn count(&self) -> u32
        ensures count { result ≡ length self.now }
        ensures most { result ≤ 16384 }
    {
        self.items.len() as u32
    }

    /// The transaction with this number, from 1 to the count.
    pub fn txn(&self, number: u32) -> &Txn
        requires first { 1 ≤ number }
        requires last { number ≤ length self.now }
        ensures { option_map (λ item. item.txn) (slice_get self.now (number - 1)) ≡ Some result.now }
    {
        &self.items[number as usize - 1].txn
    }

    /// The bytes that a write names, one for each valid byte in the order of the burst; none for a
    /// read.
    pub fn bytes(&self, number: u32) -> &[WriteByte]
        requires first { 1 ≤ number }
        requires last { number ≤ length self.now }
        ensures { option_map (λ item. item.bytes) (slice_get self.now (number - 1)) ≡ Some result.now }
    {
        self.items[number as usize - 1].bytes.as_slice()
    }

    /// The place of the transaction's manager among those that the reader was given.
    pub fn manager(&self, number: u32) -> u32
        requires first { 1 ≤ number }
        requires last { number ≤ length self.now }
        ensures { option_map (λ item. item.manager) (slice_get self.now (number - 1)) ≡ Some result }
    {
        self.items[number as usize - 1].manager
    }

    /// The transactions of the manager that is this document node, in their order; none where it is no
    /// manager.
    ///
    /// # Errors
    ///
    /// There was no memory for them.
    pub fn script(&self, alloc: Global, manager: u32) -> Result<Script, NoMemory>
        ensures { IfOk result (λ script. script ≡ script_of self.now manager) }
    {
        let mut script = Script::new(alloc);
        for item in &self.items {
            if item.manager == manager {
                script.push(item.txn, item.bytes.as_slice())?;
            }
        }
        Ok(script)
    }
}
