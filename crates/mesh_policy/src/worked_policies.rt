// Worked cases of the meaning of the policies. Each clause is an equation that holds by computation.
#![tactic(auto, unfolding(crate::specs::Authenticated::authenticated, crate::specs::Explanation::explanation_of, crate::specs::Modes::mode_at, crate::specs::Modes::other_mode, crate::specs::PeerNames::peer_of, crate::specs::Ports::given, crate::specs::Ports::listed, crate::specs::Ports::protocol_at, crate::specs::RuleHolds::rule_holds, crate::specs::RuleHolds::rule_holds_tcp, crate::specs::SelectFault::select_fault, crate::specs::Sizes::size_of, crate::specs::Verdicts::arrival, crate::specs::Verdicts::verdict_of, crate::specs::WellFormedCase::many_tokens, crate::specs::Workload::workload_of))]

ghost use Rattle.std.specs.Prelude.{◌≡◌, codes, true, false, [], ◌∷◌};
ghost use Rattle.mesh_policy.specs.Modes.{mode_at, other_mode};
ghost use Rattle.mesh_policy.specs.PeerNames.{peer_of};
ghost use Rattle.mesh_policy.specs.Ports.{listed, protocol_at, protocol_by};
ghost use Rattle.mesh_policy.specs.SelectFault as fault;
ghost use Rattle.mesh_policy.specs.Verdicts.{verdict};
ghost use Rattle.mesh_policy.specs.WellFormedCase.{many_tokens};
ghost use Rattle.mesh_policy.specs.WorkedPolicies as worked;

use crate::{Mode, Outcome, Protocol};

/// Of two policies for the workload the older counts, also where it is UNSET and a wider policy decides. One without
/// a time is the newest, and at one time the names decide.
pub fn oldest_peer_policy_counts()
    ensures unset { mode_at (worked.old_and_new (Some (codes "2024-01-01T00:00:00Z"))) worked.web 9000 ≡ Mode.Disable }
    ensures timeless { mode_at (worked.old_and_new None) worked.web 9000 ≡ Mode.Strict }
    ensures same_age { mode_at (worked.old_and_new (Some (codes "2024-06-01T00:00:00Z"))) worked.web 9000 ≡ Mode.Strict }
{}

/// The ports of Services, and those that the policy for the workload names, are listed; the others have its mode.
pub fn ports_are_listed()
    ensures numbers { listed worked.port_modes worked.web ≡ 7777 ∷ 8000 ∷ 9000 ∷ 9001 ∷ [] }
    ensures of_service { protocol_at worked.port_modes worked.web 8000 ≡ Protocol.Http }
    ensures of_policy { protocol_at worked.port_modes worked.web 7777 ≡ Protocol.Tcp }
    ensures strict { mode_at worked.port_modes worked.web 9000 ≡ Mode.Strict }
    ensures without_entry { mode_at worked.port_modes worked.web 9001 ≡ Mode.Disable }
    ensures others { other_mode worked.port_modes worked.web ≡ Mode.Disable }
{}

/// `appProtocol` decides alone, and else the front of the port's name.
pub fn protocols_by_name()
    ensures folded { protocol_by None (Some (codes "HTTP2-api")) ≡ Protocol.Http }
    ensures front { protocol_by None (Some (codes "grpc-web-x")) ≡ Protocol.Http }
    ensures unknown { protocol_by None (Some (codes "web-http")) ≡ Protocol.Tcp }
    ensures written { protocol_by (Some (codes "")) (Some (codes "http")) ≡ Protocol.Tcp }
    ensures not_cut { protocol_by (Some (codes "http-x")) None ≡ Protocol.Tcp }
    ensures neither { protocol_by None None ≡ Protocol.Tcp }
{}

/// An AUDIT policy marks what it holds for, whatever DENY and ALLOW make of it. A refusal is 403 for a request and the
/// end of a connection, whose rules are read without what they ask of requests.
pub fn audit_marks_and_deny_refuses()
    ensures request { worked.verdict_in worked.audited (worked.request_case (codes "DELETE") (codes "/") [])
        ≡ verdict Outcome.Refused403 true }
    ensures other { worked.verdict_in worked.audited (worked.get (codes "/")) ≡ verdict Outcome.Admitted true }
    ensures connection { worked.verdict_in worked.audited (worked.plain 9000) ≡ verdict Outcome.Closed true }
{}

/// CUSTOM comes before AUDIT. The answer decides, and without one `failOpen`; a connection is refused by an authorizer
/// over HTTP.
pub fn authorizer_comes_first()
    ensures denied { worked.verdict_in worked.asked (worked.answered (worked.get (codes "/")) (worked.answer false))
        ≡ verdict Outcome.Refused403 false }
    ensures allowed { worked.verdict_in worked.asked (worked.answered (worked.get (codes "/")) (worked.answer true))
        ≡ verdict Outcome.Admitted true }
    ensures silent { worked.verdict_in (worked.admin false) (worked.get (codes "/admin?x=1")) ≡ verdict Outcome.Refused403 false }
    ensures open { worked.verdict_in (worked.admin true) (worked.get (codes "/admin?x=1")) ≡ verdict Outcome.Admitted false }
    ensures not_asked { worked.verdict_in (worked.admin false) (worked.get (codes "/a")) ≡ verdict Outcome.Admitted false }
    ensures connection { worked.verdict_in (worked.admin true) (worked.plain 9000) ≡ verdict Outcome.Closed false }
{}

/// On a TCP port an ALLOW rule that asks for something of a request never holds, and a DENY rule holds by the rest of it.
pub fn connections_have_no_method()
    ensures allow { worked.verdict_in (worked.allowed (worked.get_on_9000 ∷ [])) (worked.plain 9000) ≡ verdict Outcome.Closed false }
    ensures deny { worked.verdict_in (worked.denied (worked.get_on_9000 ∷ [])) (worked.plain 9000) ≡ verdict Outcome.Closed false }
    ensures deny_elsewhere { worked.verdict_in (worked.denied (worked.get_on_9000 ∷ [])) (worked.plain 9001)
        ≡ verdict Outcome.Admitted false }
{}

/// A policy without rules allows nothing, and a rule with nothing written allows everything.
pub fn nothing_and_everything_allowed()
    ensures nothing { worked.verdict_in (worked.allowed []) (worked.get (codes "/")) ≡ verdict Outcome.Refused403 false }
    ensures everything { worked.verdict_in (worked.allowed (worked.any_rule ∷ [])) (worked.get (codes "/"))
        ≡ verdict Outcome.Admitted false }
    ensures no_request { worked.verdict_in (worked.allowed []) (worked.plain 8000) ≡ verdict Outcome.Admitted false }
{}

/// A valid token gives its claims, none gives none, and a bad one is refused with 401. A case with a token at two places
/// isn't well-formed.
pub fn tokens_are_judged()
    ensures valid { worked.verdict_in (worked.for_principal (codes "https://i.example/a/u1")) (worked.shown (codes "Bearer t1"))
        ≡ verdict Outcome.Admitted false }
    ensures anonymous { worked.verdict_in (worked.for_principal (codes "*")) (worked.judged (worked.get (codes "/")))
        ≡ verdict Outcome.Refused403 false }
    ensures bad { worked.verdict_in (worked.for_principal (codes "*")) (worked.shown (codes "Bearer bad"))
        ≡ verdict Outcome.Refused401 false }
    ensures two { many_tokens (worked.jwt_rule false ∷ []) (worked.token_case (codes "/?access_token=t2") (codes "Bearer t1")) ≡ true }
    ensures one { many_tokens (worked.jwt_rule false ∷ worked.jwt_rule true ∷ []) (worked.token_case (codes "/") (codes "Bearer t1"))
        ≡ false }
{}

/// A peer's name has five parts behind its scheme, and `ns` is no trust domain.
pub fn peer_names()
    ensures parts { peer_of (codes "spiffe://a_b.c/ns/n-1/sa/x.y")
        ≡ Some (record { trust = codes "a_b.c"; namespace = codes "n-1"; account = codes "x.y" }) }
    ensures no_domain { peer_of (codes "spiffe://ns/ns/n/sa/a") ≡ None }
    ensures dotted_namespace { peer_of (codes "spiffe://t/ns/n.m/sa/a") ≡ None }
    ensures more { peer_of (codes "spiffe://t/ns/n/sa/a/b") ≡ None }
{}

/// A namespace is the one in its place in the peer's name, and a principal the whole name behind `spiffe://`.
pub fn peers_by_name()
    ensures other_place { worked.verdict_in (worked.for_namespace (codes "sa")) (worked.peer_case (codes "spiffe://cluster.local/ns/ns/sa/x"))
        ≡ verdict Outcome.Closed false }
    ensures prefix { worked.verdict_in (worked.for_namespace (codes "s*")) (worked.peer_case (codes "spiffe://cluster.local/ns/sandbox/sa/x"))
        ≡ verdict Outcome.Admitted false }
    ensures too_long { worked.verdict_in (worked.for_peer (codes "*/cluster.local/ns/a/sa/b")) (worked.peer_case (codes "spiffe://cluster.local/ns/a/sa/b"))
        ≡ verdict Outcome.Closed false }
    ensures suffix { worked.verdict_in (worked.for_peer (codes "*/sa/b")) (worked.peer_case (codes "spiffe://cluster.local/ns/a/sa/b"))
        ≡ verdict Outcome.Admitted false }
    ensures unknown { worked.verdict_in (worked.for_peer (codes "*")) (worked.plain 9000) ≡ verdict Outcome.Closed false }
{}

/// An empty header is there and isn't present; a negative list holds where nothing matches.
pub fn empty_headers()
    ensures present { worked.verdict_in (worked.for_header (codes "*" ∷ []) []) worked.empty_header ≡ verdict Outcome.Refused403 false }
    ensures absent { worked.verdict_in (worked.for_header [] (codes "*" ∷ [])) worked.empty_header ≡ verdict Outcome.Admitted false }
{}

/// A path is judged without its query, by a template where the value is one.
pub fn paths_by_template()
    ensures empty_rest { worked.verdict_in (worked.for_path (codes "/v1/{*}/x/{**}")) (worked.get (codes "/v1/a/x/"))
        ≡ verdict Outcome.Admitted false }
    ensures empty_segment { worked.verdict_in (worked.for_path (codes "/v1/{*}/x/{**}")) (worked.get (codes "/v1//x/b"))
        ≡ verdict Outcome.Refused403 false }
    ensures query { worked.verdict_in (worked.for_path (codes "/v1/{*}/x/{**}")) (worked.get (codes "/v1/a/x?q"))
        ≡ verdict Outcome.Refused403 false }
{}

/// What becomes of TLS on PERMISSIVE ports: mutual for a peer of the mesh, passed on unread to a TCP port else.
pub fn tls_of_the_mesh()
    ensures opaque { worked.verdict_in (worked.with_policies []) (worked.offering 9000 (codes "h2" ∷ []) None)
        ≡ verdict Outcome.Admitted false }
    ensures without_peer { worked.verdict_in (worked.with_policies []) (worked.offering 9000 (codes "istio" ∷ []) None)
        ≡ verdict Outcome.Closed false }
    ensures with_peer { worked.verdict_in (worked.with_policies [])
        (worked.offering 9000 (codes "h2" ∷ codes "istio" ∷ []) (Some (codes "spiffe://t/ns/n/sa/a")))
        ≡ verdict Outcome.Admitted false }
    ensures http { worked.verdict_in (worked.with_policies []) (worked.offering 8000 (codes "h2" ∷ []) None)
        ≡ verdict Outcome.Closed false }
{}

/// Why a Pod is refused: the least port, the least names, in the order of the reasons.
pub fn refused_pods()
    ensures no_pod { fault.select_fault (worked.with_policies []) (codes "bar") (codes "web") ≡ Some fault.no_workload }
    ensures conflict { worked.fault_in worked.conflicting ≡ Some (fault.port_conflict 9000 Protocol.Http Protocol.Tcp) }
    ensures unknown { worked.fault_in (worked.with_authorizer false (worked.asking (codes "opa") (codes "nope")))
        ≡ Some (fault.unknown_provider (codes "nope")) }
    ensures two { worked.fault_in (worked.bundle [] (worked.asking (codes "opa") (codes "ext")) [] []
        (worked.provider (codes "ext") true ∷ worked.provider (codes "opa") true ∷ []))
        ≡ Some (fault.two_providers (codes "ext") (codes "opa")) }
    ensures header { worked.fault_in (worked.header_tested false) ≡ Some (fault.token_header_tested (codes "authorization")) }
    ensures forwarded { worked.fault_in (worked.header_tested true) ≡ None }
{}

/// 16 ports and 2,048 values are not too many.
pub fn limits_of_a_workload()
    ensures ports { worked.fault_in (worked.with_ports 16) ≡ None }
    ensures more_ports { worked.fault_in (worked.with_ports 17) ≡ Some (fault.too_many_ports 17) }
    ensures values { worked.fault_in (worked.allowed (worked.principals 2048 ∷ [])) ≡ None }
    ensures more_values { worked.fault_in (worked.allowed (worked.principals 2049 ∷ [])) ≡ Some (fault.too_many_values 2049 2 2049) }
{}

/// The least name in byte order stands for a stage, and the chain for the port.
pub fn explained_by_the_least_name()
    ensures { worked.explanation_in (worked.allowed worked.twelve_rules) (worked.get (codes "/"))
        ≡ record {
          chain = Some (codes "8000-plain");
          custom = None;
          audit = None;
          deny = None;
          allow = Some (codes "ns[foo]-policy[a]-rule[10]");
          verdict = verdict Outcome.Admitted false;
        } }
{}
