ghost use Rattle.std.specs.Prelude.{◌≡◌, ◌≤◌, length, unwrap_or};
ghost use Rattle.emit_system_spec.specs.Emittable.{IsEmittable};
ghost use Rattle.emit_system_spec.specs.Fields as fields;
ghost use Rattle.emit_system_spec.specs.NodeCode as node;
ghost use Rattle.emit_layout.specs.Tables.{HasFields};

use crate::positions::Positions;
use base_core::Control;
use emit_row_code::RingFields;
use emit_row_facts::is_triggered;
use modules_profile::Local;
use modules_schedule::Schedule;
use std::marker::Model;

/// The numbers of the rows and groups that have fields: fields lie in their order.
#[derive(Drop)]
pub struct Numbers {
    /// Those of the rows with a value.
    pub values: Positions,
    /// Those of the rows with the memory of one sample.
    pub singles: Positions,
    /// Those of the rows with the memory of several samples.
    pub lines: Positions,
    /// Those of the groups with a counter.
    pub counters: Positions,
}

/// Where the fields of a system's struct lie, seen as the system and its schedule. All look-ups take constant expected
/// time.
#[derive(Drop)]
pub struct Fields<'a> {
    local: &'a Local,
    schedule: &'a Schedule,
    numbers: Numbers,
}

impl<'a> Model for Fields<'a> {
    ghost use Rattle.emit_layout.specs.Laid.{Scheduled};
    ghost use Rattle.emit_layout.specs.Tables.{HasFields};

    ghost Value = { Scheduled };

    ghost view = { λ f. record { local = f.local.now; schedule = f.schedule.now } };

    ghost invariant = { λ f. HasFields (record { local = f.local.now; schedule = f.schedule.now })
        f.numbers.values f.numbers.singles f.numbers.lines f.numbers.counters };
}

impl<'a> Fields<'a> {
    /// The fields of a system with this schedule, where these are the numbers of its rows and groups.
    pub fn new(local: &'a Local, schedule: &'a Schedule, numbers: Numbers) -> Fields<'a>
        requires { HasFields (record { local = local.now; schedule = schedule.now })
            numbers.values numbers.singles numbers.lines numbers.counters }
        ensures { result ≡ record { local = local.now; schedule = schedule.now } }
    {
        Fields {
            local,
            schedule,
            numbers,
        }
    }

    /// The system.
    pub fn local(&self) -> &'a Local
        ensures { result.now ≡ self.now.local }
    {
        self.local
    }

    /// The schedule of its nodes.
    pub fn schedule(&self) -> &'a Schedule
        ensures { result.now ≡ self.now.schedule }
    {
        self.schedule
    }

    /// The code of the system can be written.
    pub fn is_emittable(&self)
        ensures { IsEmittable self.now.local self.now.schedule }
    {
        let _numbers = &self.numbers;
    }

    /// The field of the value of row `b`.
    pub fn value(&self, b: u32) -> u32
        ensures { result ≡ fields.value_field self.now.local b }
    {
        place_among(&self.numbers.values, b) as u32
    }

    /// The field of what row `b` remembers, where that is one sample.
    pub fn memory(&self, b: u32) -> u32
        ensures { result ≡ fields.memory_field self.now.local b }
    {
        (self.numbers.values.count() + place_among(&self.numbers.singles, b)) as u32
    }

    /// The field of what row `b` remembers, where that is several samples.
    pub fn ring(&self, b: u32) -> RingFields
        ensures { result ≡ node.ring_fields self.now.local b }
    {
        let numbers = &self.numbers;
        let first = numbers.values.count()
            + numbers.singles.count()
            + 3 * place_among(&numbers.lines, b);
        let items = first as u32;
        RingFields {
            items,
            place: items + 1,
            taken: items + 2,
        }
    }

    /// The field of what the trigger remembers.
    pub fn trigger(&self) -> u32
        ensures { result ≡ fields.trigger_field self.now.local }
    {
        let numbers = &self.numbers;
        (numbers.values.count() + numbers.singles.count() + 3 * numbers.lines.count()) as u32
    }

    /// The field of the child at a place, and where the counters begin after the last one.
    pub fn child(&self, place: usize) -> u32
        requires { place ≤ length self.now.local.children }
        ensures { result ≡ fields.child_field self.now.local place }
    {
        let triggers = u32::from(is_triggered(control_of(self.local)));
        self.trigger() + triggers + place as u32
    }

    /// The counter of a group, where it has one.
    pub fn counter(&self, group: u32) -> Option<u32>
        ensures { result ≡ fields.counter_field self.now.local self.now.schedule group }
    {
        match self.numbers.counters.place(group) {
            Some(place) => Some(self.child(child_count(self.local)) + place as u32),
            None => None,
        }
    }

    /// The groups that have a counter.
    pub fn counted(&self) -> &[u32]
        ensures { result.now ≡ fields.shared_groups self.now.schedule }
    {
        self.numbers.counters.keys()
    }
}

// The first place of a number, 0 where it isn't there.
fn place_among(positions: &Positions, key: u32) -> usize
    ensures { result ≡ unwrap_or (fields.first_place positions.now key) 0 }
{
    positions.place(key).unwrap_or(0)
}

fn control_of(local: &Local) -> Control
    ensures { result ≡ local.now.control }
{
    local.control
}

fn child_count(local: &Local) -> usize
    ensures { result ≡ length local.now.children }
{
    local.children.len()
}
