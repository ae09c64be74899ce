// Worked cases of the meaning of a listener. Each clause is an equation that holds by computation.
#![tactic(auto, unfolding(crate::specs::Chosen::chosen, crate::specs::ListenerVerdict::envoy_verdict))]

ghost use Rattle.std.specs.Prelude.{◌≡◌, codes, true, false, [], ◌∷◌, Some, None};
ghost use Rattle.mesh_policy.specs.declared.verdict.Outcome.TheVariants as Outcome;
ghost use Rattle.envoy_types.specs.Chosen.{chosen};
ghost use Rattle.envoy_types.specs.ListenerVerdict.{unmarked};
ghost use Rattle.envoy_types.specs.WorkedListeners as worked;
ghost use Rattle.envoy_types.specs.WorkedListeners.{http_verdict, marked, tcp_verdict};
ghost use Rattle.envoy_types.specs.declared.access.RbacAction.TheVariants as action;
ghost use Rattle.envoy_types.specs.declared.chains.HttpFilter.TheVariants as http;
ghost use Rattle.envoy_types.specs.declared.chains.NetworkFilter.TheVariants as network;
ghost use Rattle.envoy_types.specs.declared.jwt.Requirement.TheVariants as requirement;

/// A law: where no chain of those that name the port is for the connection, nothing goes back to those without a port. Of
/// the names that are offered the first that a chain lists decides. The call does nothing.
pub fn chains_are_pruned()
    ensures no_way_back { chosen worked.one_port (worked.plain 9000) ≡ None }
    ensures other_port { chosen worked.one_port (worked.plain 9001) ≡ Some 1 }
    ensures agreed { chosen worked.one_name (worked.offering None (codes "h2" ∷ codes "istio" ∷ [])) ≡ Some 1 }
    ensures not_agreed { chosen worked.one_name (worked.offering None (codes "h2" ∷ [])) ≡ Some 0 }
{}

/// A law: a chain with the TLS socket knows the peer's name, and closes what shows none; one without it knows none, even
/// where the peer shows one. An HTTP chain without it closes TLS, and without a request it admits. The call does nothing.
pub fn sockets_show_peers()
    ensures known { tcp_verdict true (network.Rbac (worked.rbac worked.known_peer) ∷ [])
        (worked.offering (Some (codes "p")) []) ≡ unmarked Outcome.Admitted }
    ensures no_peer { tcp_verdict true [] (worked.offering None []) ≡ unmarked Outcome.Closed }
    ensures plain_text { tcp_verdict true [] (worked.plain 9000) ≡ unmarked Outcome.Closed }
    ensures opaque { tcp_verdict false (network.Rbac (worked.rbac worked.known_peer) ∷ [])
        (worked.offering (Some (codes "p")) []) ≡ unmarked Outcome.Closed }
    ensures unread { http_verdict [] (worked.offering (Some (codes "p")) []) ≡ unmarked Outcome.Closed }
    ensures no_request { http_verdict (http.Rbac (worked.rbac (worked.rules_for_all action.Deny)) ∷ []) (worked.plain 9000)
        ≡ unmarked Outcome.Admitted }
{}

/// A law: shadow rules refuse nothing by themselves. Where they tell a policy, the authorizer of that key is asked, and
/// its answer decides, and without one `failure_mode_allow` does. The call does nothing.
pub fn shadow_rules_refuse_nothing()
    ensures alone { http_verdict (http.Rbac worked.shadow ∷ []) worked.get ≡ unmarked Outcome.Admitted }
    ensures asked { http_verdict (http.Rbac worked.shadow ∷ http.ExtAuthz (worked.authz worked.told false) ∷ []) worked.get
        ≡ unmarked Outcome.Refused403 }
    ensures fail_open { http_verdict (http.Rbac worked.shadow ∷ http.ExtAuthz (worked.authz worked.told true) ∷ []) worked.get
        ≡ unmarked Outcome.Admitted }
    ensures allowed { http_verdict (http.Rbac worked.shadow ∷ http.ExtAuthz (worked.authz worked.told false) ∷ [])
        (worked.answered true) ≡ unmarked Outcome.Admitted }
    ensures denied { http_verdict (http.Rbac worked.shadow ∷ http.ExtAuthz (worked.authz worked.told true) ∷ [])
        (worked.answered false) ≡ unmarked Outcome.Refused403 }
    ensures other_key { http_verdict (http.Rbac worked.shadow ∷ http.ExtAuthz (worked.authz (codes "q") false) ∷ []) worked.get
        ≡ unmarked Outcome.Admitted }
    ensures connection { tcp_verdict false (network.Rbac worked.shadow ∷ network.ExtAuthz (worked.authz worked.told false) ∷ [])
        (worked.plain 9000) ≡ unmarked Outcome.Closed }
{}

/// A law: LOG marks and refuses nothing, and a mark stays on a later refusal. The call does nothing.
pub fn marks_stay()
    ensures admitted { http_verdict (http.Rbac (worked.rbac (worked.rules_for_all action.Log)) ∷ []) worked.get
        ≡ marked Outcome.Admitted }
    ensures refused { http_verdict (http.Rbac (worked.rbac (worked.rules_for_all action.Log))
        ∷ http.Rbac (worked.rbac (worked.rules_for_all action.Deny)) ∷ []) worked.get ≡ marked Outcome.Refused403 }
    ensures too_late { http_verdict (http.Rbac (worked.rbac (worked.rules_for_all action.Deny))
        ∷ http.Rbac (worked.rbac (worked.rules_for_all action.Log)) ∷ []) worked.get ≡ unmarked Outcome.Refused403 }
{}

/// A law: of the providers that hold the first that the requirement lists sets the claims. Without a token it holds where
/// that is allowed, and with one that isn't valid it never does. The call does nothing.
pub fn first_provider_sets_claims()
    ensures first { http_verdict (worked.by_subject (codes "bob")) worked.shown ≡ unmarked Outcome.Admitted }
    ensures second { http_verdict (worked.by_subject (codes "ann")) worked.shown ≡ unmarked Outcome.Refused403 }
    ensures missing { http_verdict (worked.required (codes "/") (worked.either true)) worked.get ≡ unmarked Outcome.Admitted }
    ensures not_missing { http_verdict (worked.required (codes "/") (worked.either false)) worked.get ≡ unmarked Outcome.Refused401 }
    ensures unlisted { http_verdict (worked.required (codes "/") (worked.either true)) worked.unlisted ≡ unmarked Outcome.Refused401 }
    ensures unknown { http_verdict (worked.required (codes "/") (requirement.One (codes "c"))) worked.shown ≡ unmarked Outcome.Refused401 }
    ensures query { http_verdict (worked.required (codes "/a?b") (requirement.One (codes "c"))) worked.get ≡ unmarked Outcome.Refused401 }
    ensures other_path { http_verdict (worked.required (codes "/b") (requirement.One (codes "c"))) worked.get ≡ unmarked Outcome.Admitted }
{}
