//! What a run is configured with: its nodes, slots, directory and objects.
ghost use Rattle.std.specs.Prelude.{◌≡◌};

use crate::list::List;
use crate::node_set::NodeSet;
use crate::numbers::NodeId;
use crate::value::Value;

/// The ranges that the numbers of a packet keep.
#[derive(Clone, Copy, Debug, PartialEq, Eq)]
pub struct Limits {
    /// 1: values are numbers. 2: values are numbers or texts.
    pub version: u8,
    pub nodes: u8,
    pub slots: u8,
    pub objects: u16,
}

/// An object as it is declared: its first value, its owner, and its replicas with the owner.
#[derive(Clone, Copy, Debug, PartialEq, Eq)]
pub struct ObjectDecl {
    pub value: Value,
    pub owner: NodeId,
    pub replicas: NodeSet,
}

/// The declared objects in order.
pub type ObjectList = List<ObjectDecl>;

/// A configuration. Nodes, slots and objects are numbered from 0.
#[derive(Debug, Drop)]
pub struct Config {
    /// 1: values are numbers. 2: values are numbers or texts.
    pub version: u8,
    pub nodes: u8,
    pub slots: u8,
    /// The nodes that keep the directory of owners; the same at all nodes.
    pub directory: NodeSet,
    /// How many member replicas a reader leaves behind when it goes; none: readers never come or go.
    pub degree: Option<u8>,
    pub objects: ObjectList,
}

impl Config {
    ghost use Rattle.zeus_base.specs.Limits.{KeepsLimits, limits_of};

    /// The ranges that the numbers of a packet keep under this configuration.
    pub fn limits(&self) -> Limits
        requires { KeepsLimits self.now }
        ensures { result ≡ limits_of self.now }
    {
        Limits {
            version: self.version,
            nodes: self.nodes,
            slots: self.slots,
            objects: self.objects.len() as u16,
        }
    }
}
