//! The kept edges of a wheel, as tables.
ghost use Rattle.std.specs.Prelude.{◌≡◌, ◌+◌, ◌<◌, ◌≤◌, IfOk, pos, length, All, slice_index};
ghost use Rattle.wheel_types.specs.Edges.{slot_count, edge_count, edge_slots, pol_of};
ghost use Rattle.wheel_types.specs.Motions.{slots_between};
ghost use Rattle.wheel_types.specs.declared.parts.WheelParts.{WheelParts as Parts};

mod find;

pub use find::find_edges;
use std::alloc::Global;
use wheel_types::{Channel, List, Memory, Pol};

/// A kept edge: the slot at whose start it is, and which way the level goes there.
#[derive(Clone, Copy, Debug, PartialEq, Eq)]
pub struct Edge {
    pub slot: u32,
    pub pol: Pol,
}

/// The kept edges of a wheel, channel by channel, each channel's in the order of their slots.
#[derive(Debug, Drop)]
pub struct Edges {
    slots: u32,
    crank: List<Edge>,
    cam1: List<Edge>,
    cam2: List<Edge>,
    ghost few_slots: { slots ≤ 4096 },
    ghost few_crank: { length crank ≤ 4096 },
    ghost few_cam1: { length cam1 ≤ 4096 },
    ghost few_cam2: { length cam2 ≤ 4096 },
    ghost within_crank: { All (λ e. e.slot < 4096) crank },
    ghost within_cam1: { All (λ e. e.slot < 4096) cam1 },
    ghost within_cam2: { All (λ e. e.slot < 4096) cam2 },
}

impl Edges {
    ghost use Rattle.edge_angles.specs.EdgeTables.{AreEdgesOf, edges_in};

    /// The edges of a channel.
    fn on(&self, channel: Channel) -> &[Edge]
        ensures edges { result.now ≡ edges_in self.now channel }
        ensures few { length result.now ≤ 4096 }
        ensures within { All (λ e. e.slot < 4096) result.now }
    {
        match channel {
            Channel::Crank => self.crank.as_slice(),
            Channel::Cam1 => self.cam1.as_slice(),
            Channel::Cam2 => self.cam2.as_slice(),
        }
    }

    /// How many crank edges a cycle has.
    pub fn crank_count(&self) -> u32
        ensures count { result ≡ length (edges_in self.now Channel.Crank) }
        ensures of_wheel { (parts : Parts) → AreEdgesOf parts self.now → result ≡ edge_count parts Channel.Crank }
        ensures few { result ≤ 4096 }
    {
        self.cam_count(Channel::Crank)
    }

    /// Slots from crank edge `j` to the next, all of the wheel's where there is one edge.
    pub fn crank_gap(&self, j: u32) -> u32
        requires { j < length (edges_in self.now Channel.Crank) }
        ensures of_wheel { (parts : Parts) → AreEdgesOf parts self.now → result ≡ slots_between parts (pos j) (pos (j + 1)) }
        ensures some { (parts : Parts) → AreEdgesOf parts self.now → 1 ≤ result }
        ensures most { (parts : Parts) → AreEdgesOf parts self.now → result ≤ slot_count parts }
    {
        let next = if j + 1 < self.crank_count() {
            self.crank_slot(j + 1)
        } else {
            self.slots + self.crank_slot(0)
        };
        next.abs_diff(self.crank_slot(j))
    }

    /// The slot at whose start crank edge `j` is.
    pub fn crank_slot(&self, j: u32) -> u32
        requires { j < length (edges_in self.now Channel.Crank) }
        ensures of_wheel { (parts : Parts) → AreEdgesOf parts self.now → result ≡ slice_index (edge_slots parts Channel.Crank) j }
        ensures within { (parts : Parts) → AreEdgesOf parts self.now → result < slot_count parts }
        ensures few { result < 4096 }
    {
        self.cam_slot(Channel::Crank, j)
    }

    /// The polarity of crank edge `j`.
    pub fn crank_pol(&self, j: u32) -> Pol
        requires { j < length (edges_in self.now Channel.Crank) }
        ensures { (parts : Parts) → AreEdgesOf parts self.now → result ≡ pol_of parts Channel.Crank (pos j) }
    {
        self.cam_pol(Channel::Crank, j)
    }

    /// How many edges of a cam a cycle has.
    pub fn cam_count(&self, cam: Channel) -> u32
        ensures count { result ≡ length (edges_in self.now cam) }
        ensures of_wheel { (parts : Parts) → AreEdgesOf parts self.now → result ≡ edge_count parts cam }
        ensures few { result ≤ 4096 }
    {
        self.on(cam).len() as u32
    }

    /// The slot at whose start edge `n` of a cam is.
    pub fn cam_slot(&self, cam: Channel, n: u32) -> u32
        requires { n < length (edges_in self.now cam) }
        ensures of_wheel { (parts : Parts) → AreEdgesOf parts self.now → result ≡ slice_index (edge_slots parts cam) n }
        ensures within { (parts : Parts) → AreEdgesOf parts self.now → result < slot_count parts }
        ensures few { result < 4096 }
    {
        self.on(cam)[n as usize].slot
    }

    /// The polarity of edge `n` of a cam.
    pub fn cam_pol(&self, cam: Channel, n: u32) -> Pol
        requires { n < length (edges_in self.now cam) }
        ensures { (parts : Parts) → AreEdgesOf parts self.now → result ≡ pol_of parts cam (pos n) }
    {
        self.on(cam)[n as usize].pol
    }

    /// The same edges once more.
    ///
    /// # Errors
    /// Want of memory.
    pub fn copied(&self, alloc: Global) -> Result<Edges, Memory>
        ensures { IfOk result (λ copy. copy ≡ self.now) }
    {
        Ok(Edges {
            slots: self.slots,
            crank: List::from_slice(alloc, self.crank.as_slice())?,
            cam1: List::from_slice(alloc, self.cam1.as_slice())?,
            cam2: List::from_slice(alloc, self.cam2.as_slice())?,
        })
    }
}
