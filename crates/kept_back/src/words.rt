// The words that the definitions cite by the names of constants.
ghost use Rattle.std.specs.Prelude.{◌≡◌, codes};
ghost use Rattle.kept_back.specs.declared.manifests.TheConstants.{ITEMS};
ghost use Rattle.kept_back.specs.declared.items.TheConstants.{SPEC};
ghost use Rattle.kept_back.specs.declared.policies.TheConstants as policy;

/// A law: each word of the manifests that is looked at (Istio reference, "Authorization Policy"). The call does nothing.
pub fn kept_words()
    ensures items { ITEMS.now ≡ codes "items" }
    ensures spec { SPEC.now ≡ codes "spec" }

    ensures action { policy.ACTION.now ≡ codes "action" }
    ensures allow { policy.ALLOW.now ≡ codes "ALLOW" }
    ensures deny { policy.DENY.now ≡ codes "DENY" }
    ensures rules { policy.RULES.now ≡ codes "rules" }
    ensures from { policy.FROM.now ≡ codes "from" }
    ensures when { policy.WHEN.now ≡ codes "when" }
    ensures source { policy.SOURCE.now ≡ codes "source" }
    ensures request_principals { policy.REQUEST_PRINCIPALS.now ≡ codes "requestPrincipals" }
    ensures not_request_principals { policy.NOT_REQUEST_PRINCIPALS.now ≡ codes "notRequestPrincipals" }
    ensures key { policy.KEY.now ≡ codes "key" }
    ensures request_auth { policy.REQUEST_AUTH.now ≡ codes "request.auth." }
{}
