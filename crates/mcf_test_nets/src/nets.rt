//! Nets of worked texts, and whether a set of nodes is the one that is meant.
ghost use Rattle.std.specs.Prelude.{◌≡◌, length};
ghost use Rattle.mcf_flows.specs.Network.{node_count};

use mcf_instance::{Instance, read};
use mcf_network::{Net, NodeSet};
use mcf_text::{NoMemory, NodeId};
use std::alloc::Global;

/// The instance of a text, if that is one.
pub fn instance_of(alloc: Global, text: &[u8]) -> Result<Option<Instance>, NoMemory> {
    match read(alloc, text)? {
        Ok(instance) => Ok(Some(instance)),
        Err(_) => Ok(None),
    }
}

/// The net of a text, if that is an instance.
pub fn net_of(alloc: Global, text: &[u8]) -> Result<Option<Net>, NoMemory> {
    match instance_of(alloc, text)? {
        Some(instance) => Ok(Some(Net::of(alloc, &instance)?)),
        None => Ok(None),
    }
}

/// Whether a set of nodes is that of the listed nodes.
pub fn is_set_of(net: &Net, set: &NodeSet, nodes: &[u32]) -> bool
    requires { length set.now ≡ node_count net.now }
{
    for k in 0..net.node_count() {
        if set.contains(NodeId::new(k + 1)) != nodes.contains(&(k + 1)) {
            return false;
        }
    }
    true
}
