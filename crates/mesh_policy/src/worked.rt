// Worked cases of the meaning, of policies for ports alone.
#![tactic(auto, unfolding(crate::specs::Modes::other_mode, crate::specs::Ports::given, crate::specs::Ports::listed, crate::specs::RuleHolds::rule_holds, crate::specs::RuleHolds::rule_holds_tcp, crate::specs::Verdicts::arrival, crate::specs::Verdicts::verdict_of, crate::specs::Workload::workload_of))]

ghost use Rattle.std.specs.Prelude.{◌≡◌, [], ◌∷◌, codes, None};
ghost use Rattle.mesh_policy.specs.Applying.{root_namespace};
ghost use Rattle.mesh_policy.specs.Worked as worked;

/// A law: what the meaning of the policies says of some connections to a Pod of the namespace `foo`, on ports that speak
/// TCP and take both plain text and TLS. The call does nothing.
pub fn worked_cases()
    ensures no_policy { worked.verdict [] 80 None ≡ worked.admitted }
    ensures named_port { worked.verdict (worked.allow (codes "foo") (9000 ∷ [])) 9000 None ≡ worked.admitted }
    ensures other_port { worked.verdict (worked.allow (codes "foo") (9000 ∷ [])) 9001 None ≡ worked.closed }
    ensures other_namespace { worked.verdict (worked.allow (codes "bar") (9000 ∷ [])) 9001 None ≡ worked.admitted }
    ensures root_named_port { worked.verdict (worked.allow root_namespace (9000 ∷ [])) 9000 None ≡ worked.admitted }
    ensures root_other_port { worked.verdict (worked.allow root_namespace (9000 ∷ [])) 9001 None ≡ worked.closed }
    ensures second_rule { worked.verdict (worked.allow (codes "foo") (1 ∷ 9000 ∷ [])) 9000 None ≡ worked.admitted }
    ensures no_rule { worked.verdict (worked.allow (codes "foo") []) 9000 None ≡ worked.closed }
    ensures empty_rule { worked.verdict (worked.policy (codes "foo") (worked.always ∷ [])) 9000 None ≡ worked.admitted }
    ensures unread_tls { worked.verdict [] 9000 (worked.without_peer (codes "h2" ∷ [])) ≡ worked.admitted }
    ensures no_peer { worked.verdict [] 9000 (worked.without_peer (codes "istio" ∷ [])) ≡ worked.closed }
    ensures no_peer_http { worked.verdict [] 9000 (worked.without_peer (codes "istio-http/1.1" ∷ [])) ≡ worked.closed }
    ensures peer { worked.verdict [] 9000 (worked.with_peer (codes "h2" ∷ codes "istio" ∷ [])) ≡ worked.admitted }
    ensures peer_other_port { worked.verdict (worked.allow (codes "foo") (9000 ∷ [])) 9001
        (worked.with_peer (codes "istio" ∷ [])) ≡ worked.closed }
{}
