// What a request asks for: the operation of a rule.
ghost use Rattle.policy_json.specs.Operations.{operation_faults, operation_in};

use crate::both_listed::both_listed;
use crate::texts::ShortText;
use crate::values::{PathValue, PortValue};
use mesh_doc::{DocError, Form, Spot};
use mesh_policy::OperationSpec;
use serde_json::Value;
use std::alloc::Global;

const HOSTS: &str = "hosts";

const NOT_HOSTS: &str = "notHosts";

const PORTS: &str = "ports";

const NOT_PORTS: &str = "notPorts";

const METHODS: &str = "methods";

const NOT_METHODS: &str = "notMethods";

const PATHS: &str = "paths";

const NOT_PATHS: &str = "notPaths";

/// An operation: its unknown fields, and then the faults of its eight lists.
pub(crate) struct Operation;

impl Form for Operation {
    type Out = OperationSpec;

    ghost faults = { operation_faults };

    ghost value = { operation_in };

    #[tactic(auto, unfolding(crate::specs::Operations::operation_faults, crate::specs::Operations::operation_in))]
    fn read(alloc: Global, v: &Value, at: &Spot) -> Result<OperationSpec, DocError> {
        at.only_fields(
            alloc,
            v,
            &[
                HOSTS,
                NOT_HOSTS,
                PORTS,
                NOT_PORTS,
                METHODS,
                NOT_METHODS,
                PATHS,
                NOT_PATHS,
            ],
        )?;
        let hosts = both_listed::<ShortText>(alloc, v, HOSTS, NOT_HOSTS, at)?;
        let ports = both_listed::<PortValue>(alloc, v, PORTS, NOT_PORTS, at)?;
        let methods = both_listed::<ShortText>(alloc, v, METHODS, NOT_METHODS, at)?;
        let paths = both_listed::<PathValue>(alloc, v, PATHS, NOT_PATHS, at)?;
        Ok(OperationSpec {
            hosts: hosts.values,
            not_hosts: hosts.not_values,
            ports: ports.values,
            not_ports: ports.not_values,
            methods: methods.values,
            not_methods: methods.not_values,
            paths: paths.values,
            not_paths: paths.not_values,
        })
    }
}
