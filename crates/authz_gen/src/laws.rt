// Laws of the filters that policies give.
ghost use Rattle.authz_gen.specs.Laws.{FiltersArePrintable, FiltersDecide};

/// A law: the filter that accepted policies of an action are to have on a port decides each connection or request as their rules
/// do, on an HTTP port where none of them asks for a token, and can be written as JSON where they keep the limits of a workload. The
/// call does nothing.
pub fn filters_enforce()
    ensures decide { FiltersDecide }
    ensures printable { FiltersArePrintable }
{}
