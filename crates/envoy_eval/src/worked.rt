// Worked cases of the trace. Each clause is an equation that holds by computation.
ghost use Rattle.std.specs.Prelude.{◌≡◌, codes, [], ◌∷◌, Some, None};
ghost use Rattle.mesh_policy.specs.declared.verdict.Outcome.TheVariants as Outcome;
ghost use Rattle.envoy_types.specs.ListenerVerdict.{unmarked};
ghost use Rattle.envoy_types.specs.WorkedListeners as worked;
ghost use Rattle.envoy_types.specs.WorkedListeners.{marked};
ghost use Rattle.envoy_types.specs.declared.access.RbacAction.TheVariants as action;
ghost use Rattle.envoy_types.specs.declared.chains.HttpFilter.TheVariants as http;
ghost use Rattle.envoy_eval.specs.Trace.{trace_of};
ghost use Rattle.envoy_eval.specs.WorkedTraces as traces;
ghost use Rattle.envoy_eval.specs.WorkedTraces.{at};

/// A law: a filter that refuses is one of those that ran, and none behind it is. Of the hits of a stage the first counts. A
/// policy that stands in for an authorizer is no hit of DENY, though it refuses. Without a chain there is none. The call
/// does nothing.
pub fn hits_are_traced()
    ensures refused { traces.http (http.Rbac worked.shadow ∷ http.Rbac (worked.rbac (worked.rules_for_all action.Deny))
        ∷ http.Rbac (worked.rbac (worked.rules_for_all action.Log)) ∷ [])
        ≡ traces.traced (Some (at 0)) None (Some (at 1)) None (unmarked Outcome.Refused403) }
    ensures first { traces.http (http.Rbac (worked.rbac (worked.rules_for_all action.Log))
        ∷ http.Rbac (worked.rbac (worked.rules_for_all action.Log)) ∷ http.Rbac (worked.rbac (worked.rules_for_all action.Allow)) ∷ [])
        ≡ traces.traced None (Some (at 0)) None (Some (at 2)) (marked Outcome.Admitted) }
    ensures authorizer { traces.http (http.Rbac (worked.rbac traces.for_authorizer) ∷ [])
        ≡ traces.traced None None None None (unmarked Outcome.Refused403) }
    ensures unmatched { trace_of worked.one_port (worked.plain 9000) ≡ traces.closed }
{}
