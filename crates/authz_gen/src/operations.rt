// What an operation asks for, as a permission.
ghost use Rattle.std.specs.Prelude.{◌≡◌, ◌≢◌, ◌++◌, [], map, IfOk, OnOk, ⊤};
ghost use Rattle.mesh_policy.specs.AcceptedRules.{AcceptedOperation};
ghost use Rattle.authz_gen.specs.Lists.{field_of};
ghost use Rattle.authz_gen.specs.Operations as meaning;
ghost use Rattle.str_match.specs.Paths as paths;

use crate::fields::{Field, push_field};
use crate::lists::all_of;
use envoy_types::PermissionLeaf;
use mesh_policy::{OperationSpec, Pattern, Protocol};
use mesh_text::{List, Memory, Text};
use mesh_tree::Tree;
use std::alloc::Global;
use str_match::{host_tree, method_tree, path_tree};

// ---- operations

// The operations of a rule, as a port reads them.
#[derive(Drop)]
pub struct Operations {
    pub protocol: Protocol,
}

impl Field for Operations {
    type Value = OperationSpec;

    type Leaf = PermissionLeaf;

    ghost accepted = { λ _. AcceptedOperation };

    ghost tree = { λ field. meaning.operation_for field.protocol };

    fn make(
        &self,
        alloc: Global,
        operation: &OperationSpec,
    ) -> Result<Tree<PermissionLeaf>, Memory> {
        operation_tree(alloc, operation, self.protocol)
    }
}

// All fields of an operation. Those that only a request has are empty to a TCP port.
#[tactic(auto, unfolding(crate::specs::Operations::operation_tree))]
fn operation_tree(
    alloc: Global,
    operation: &OperationSpec,
    protocol: Protocol,
) -> Result<Tree<PermissionLeaf>, Memory>
    requires { AcceptedOperation operation.now }
    ensures { IfOk result (λ t. t ≡ meaning.operation_for protocol operation.now) }
{
    let mut parts = List::new(alloc);
    push_destination(alloc, &mut parts, operation, protocol)?;
    push_asked(alloc, &mut parts, operation, protocol)?;
    all_of(alloc, parts)
}

// Adds the fields that ask for a host or a port.
fn push_destination(
    alloc: Global,
    parts: &mut List<Tree<PermissionLeaf>>,
    operation: &OperationSpec,
    protocol: Protocol,
) -> Result<(), Memory>
    requires { AcceptedOperation operation.now }
    ensures { OnOk result (parts.new ≡ parts.old
        ++ field_of (map meaning.host_of (meaning.of_requests protocol operation.now.hosts))
        (map meaning.host_of (meaning.of_requests protocol operation.now.not_hosts))
        ++ field_of (map meaning.port_tree operation.now.ports) (map meaning.port_tree operation.now.not_ports)) }
{
    let hosts = of_requests(protocol, &operation.hosts);
    let not_hosts = of_requests(protocol, &operation.not_hosts);
    push_field(alloc, &Hosts, parts, hosts, not_hosts)?;
    push_field(alloc, &Ports, parts, &operation.ports, &operation.not_ports)
}

// Adds those that ask for a method or a path.
fn push_asked(
    alloc: Global,
    parts: &mut List<Tree<PermissionLeaf>>,
    operation: &OperationSpec,
    protocol: Protocol,
) -> Result<(), Memory>
    requires { AcceptedOperation operation.now }
    ensures { OnOk result (parts.new ≡ parts.old
        ++ field_of (map meaning.method_of (meaning.of_requests protocol operation.now.methods))
        (map meaning.method_of (meaning.of_requests protocol operation.now.not_methods))
        ++ field_of (map paths.path_tree (meaning.of_requests protocol operation.now.paths))
        (map paths.path_tree (meaning.of_requests protocol operation.now.not_paths))) }
{
    let methods = of_requests(protocol, &operation.methods);
    let not_methods = of_requests(protocol, &operation.not_methods);
    push_field(alloc, &Methods, parts, methods, not_methods)?;
    let paths = of_requests(protocol, &operation.paths);
    let not_paths = of_requests(protocol, &operation.not_paths);
    push_field(alloc, &Paths, parts, paths, not_paths)
}

// What only a request has: on a TCP port none of these values.
fn of_requests(protocol: Protocol, values: &[Text]) -> &[Text]
    ensures { result.now ≡ meaning.of_requests protocol values.now }
{
    match protocol {
        Protocol::Http => values,
        Protocol::Tcp => &[],
    }
}

// ---- fields

// Hosts, of which one is asked for.
pub struct Hosts;

impl Field for Hosts {
    type Value = Text;

    type Leaf = PermissionLeaf;

    ghost accepted = { λ _ value. value ≢ [] };

    ghost tree = { λ _. meaning.host_of };

    fn make(&self, alloc: Global, value: &Text) -> Result<Tree<PermissionLeaf>, Memory> {
        let pattern = Pattern::parse(alloc, value)?;
        host_tree(alloc, &pattern)
    }
}

// Ports, of which one is asked for.
pub struct Ports;

impl Field for Ports {
    type Value = u16;

    type Leaf = PermissionLeaf;

    ghost accepted = { λ _ _. ⊤ };

    ghost tree = { λ _. meaning.port_tree };

    fn make(&self, _alloc: Global, port: &u16) -> Result<Tree<PermissionLeaf>, Memory> {
        Ok(Tree::leaf(PermissionLeaf::DestinationPort(*port)))
    }
}

// Methods, by one of which is asked.
pub struct Methods;

impl Field for Methods {
    type Value = Text;

    type Leaf = PermissionLeaf;

    ghost accepted = { λ _ value. value ≢ [] };

    ghost tree = { λ _. meaning.method_of };

    fn make(&self, alloc: Global, value: &Text) -> Result<Tree<PermissionLeaf>, Memory> {
        let pattern = Pattern::parse(alloc, value)?;
        method_tree(alloc, &pattern)
    }
}

// Values of `paths`, templates among them, of which one is asked for.
pub struct Paths;

impl Field for Paths {
    type Value = Text;

    type Leaf = PermissionLeaf;

    ghost accepted = { λ _ value. value ≢ [] };

    ghost tree = { λ _. paths.path_tree };

    fn make(&self, alloc: Global, value: &Text) -> Result<Tree<PermissionLeaf>, Memory> {
        path_tree(alloc, value)
    }
}
