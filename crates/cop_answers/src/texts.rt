//! What is read for an order, and what the engines answer on it.

use cop_engine::{Fault, Files, PlannedNetwork, planned, planned_with_files};
use cop_net::{Network, NodeTable, PdoTable, all_rates, network, read_pdos};
use cop_plan::{Asked, Choice};
use std::alloc::{AllocError, Global};

/// The two tables of a network, each read once.
pub struct Tables {
    pub nodes: NodeTable,
    pub pdos: PdoTable,
}

/// One call on each way out is cheaper to prove than the fields one by one.
impl Drop for Tables {
    fn drop(self) {
        let Tables {
            nodes: _nodes,
            pdos: _pdos,
        } = self;
    }
}

/// The files of a network, as far as they were read.
pub struct Texts {
    pub nodes: Vec<u8>,
    pub pdos: Vec<u8>,
    /// The table of settings; no bytes, if none is named.
    pub settings: Vec<u8>,
    /// The EDS files by their names, each once.
    pub eds_files: Vec<(String, Vec<u8>)>,
    /// What is asked of the plan.
    pub asked: Asked,
}

/// One call on each way out is cheaper to prove than the fields one by one.
impl Drop for Texts {
    fn drop(self) {
        let Texts {
            nodes: _nodes,
            pdos: _pdos,
            settings: _settings,
            eds_files: _eds_files,
            asked: _asked,
        } = self;
    }
}

/// All that was read for an order. It is kept, so that the words of a fault are of what was read.
pub struct Inputs {
    pub network: Texts,
    /// The table of streams, the refusals or the trace.
    pub other: Vec<u8>,
}

/// One call on each way out is cheaper to prove than the fields one by one.
impl Drop for Inputs {
    fn drop(self) {
        let Inputs {
            network: _network,
            other: _other,
        } = self;
    }
}

impl Inputs {
    /// Nothing was read yet.
    pub fn new(alloc: Global) -> Inputs {
        Inputs {
            network: Texts {
                nodes: Vec::new(alloc),
                pdos: Vec::new(alloc),
                settings: Vec::new(alloc),
                eds_files: Vec::new(alloc),
                asked: Asked {
                    rates: all_rates(),
                    choice: Choice::Order,
                },
            },
            other: Vec::new(alloc),
        }
    }
}

impl Texts {
    /// The two tables of the network, of which that of nodes was read before its EDS files.
    pub fn tables(&self, alloc: Global, nodes: NodeTable) -> Result<Tables, Fault> {
        let pdos = read_pdos(alloc, &self.pdos)?;
        Ok(Tables { nodes, pdos })
    }

    /// The network that the tables and the EDS files make.
    pub fn network<'a>(&self, alloc: Global, tables: &'a Tables) -> Result<Network<'a>, Fault> {
        let Tables { nodes, pdos } = tables;
        Ok(network(alloc, &self.asked.rates, nodes, pdos, &self.eds_files)?)
    }

    /// The network, and what the planner answers for it.
    pub fn planned<'a>(
        &self,
        alloc: Global,
        tables: &'a Tables,
    ) -> Result<PlannedNetwork<'a>, Fault> {
        let Tables { nodes, pdos } = tables;
        Ok(planned(alloc, &self.asked, nodes, pdos, &self.eds_files)?)
    }

    /// The same with the files of the plan.
    pub fn planned_with_files<'a>(
        &self,
        alloc: Global,
        tables: &'a Tables,
    ) -> Result<(PlannedNetwork<'a>, Files), Fault> {
        let Tables { nodes, pdos } = tables;
        Ok(planned_with_files(alloc, &self.asked, nodes, pdos, &self.eds_files)?)
    }
}

/// The name of a file in the folder of another.
pub fn beside(alloc: Global, named: &str, name: &str) -> Result<String, AllocError> {
    match named.rsplit_once('/') {
        Some((folder, _)) => format!(in alloc; "{folder}/{name}"),
        None => String::from_str(alloc, name),
    }
}
