// Laws of the meaning of the policies, each the contract of a function without a body.
ghost use Rattle.mesh_policy.specs.PeerNames.{PeerNamesAreRead};
ghost use Rattle.mesh_policy.specs.Workload.{WorkloadTellsPorts};

/// A law: a well-formed peer name (SPIFFE ID, section 2) has its three parts and no others. The call does nothing.
pub fn peer_names_are_read()
    ensures { PeerNamesAreRead }
{}

/// A law: the record of a workload says of each port what the manifests do. The call does nothing.
pub fn workload_tells_ports()
    ensures { WorkloadTellsPorts }
{}
