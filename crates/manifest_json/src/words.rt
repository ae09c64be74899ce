// The words of manifests, which the definitions cite by the names of constants.
ghost use Rattle.std.specs.Prelude.{◌≡◌, codes};
ghost use Rattle.manifest_json.specs.declared.document.TheConstants.{ITEMS, LIST};
ghost use Rattle.manifest_json.specs.declared.items.TheConstants.{API_VERSION, KIND, METADATA, SPEC};
ghost use Rattle.manifest_json.specs.declared.kind_table.TheConstants as table;
ghost use Rattle.manifest_json.specs.declared.mesh_config.TheConstants as mesh;
ghost use Rattle.manifest_json.specs.declared.metadata.TheConstants as metadata;
ghost use Rattle.manifest_json.specs.declared.pod.TheConstants.{CONTAINERS, CONTAINER_PORT};
ghost use Rattle.manifest_json.specs.declared.ports.TheConstants.{PORT, PORTS, PROTOCOL, TCP};
ghost use Rattle.manifest_json.specs.declared.service.TheConstants.{APP_PROTOCOL, SELECTOR, TARGET_PORT};

/// A law: each word that the tables of manifests have (Kubernetes API reference; Istio reference), in their order.
pub fn manifest_words()
    ensures list { LIST.now ≡ codes "List" }
    ensures items { ITEMS.now ≡ codes "items" }

    ensures api_version { API_VERSION.now ≡ codes "apiVersion" }
    ensures kind { KIND.now ≡ codes "kind" }
    ensures metadata { METADATA.now ≡ codes "metadata" }
    ensures spec { SPEC.now ≡ codes "spec" }

    ensures istio_v1 { table.ISTIO_V1.now ≡ codes "security.istio.io/v1" }
    ensures istio_v1beta1 { table.ISTIO_V1BETA1.now ≡ codes "security.istio.io/v1beta1" }
    ensures authorization_policy { table.AUTHORIZATION_POLICY.now ≡ codes "AuthorizationPolicy" }
    ensures peer_authentication { table.PEER_AUTHENTICATION.now ≡ codes "PeerAuthentication" }
    ensures request_authentication { table.REQUEST_AUTHENTICATION.now ≡ codes "RequestAuthentication" }
    ensures core_v1 { table.CORE_V1.now ≡ codes "v1" }
    ensures pod { table.POD.now ≡ codes "Pod" }
    ensures service { table.SERVICE.now ≡ codes "Service" }
    ensures profile_v1 { table.PROFILE_V1.now ≡ codes "mesh.profile/v1" }
    ensures mesh_config { table.MESH_CONFIG.now ≡ codes "MeshConfig" }
    ensures istio_group { table.ISTIO_GROUP.now ≡ codes "security.istio.io/" }
    ensures profile_group { table.PROFILE_GROUP.now ≡ codes "mesh.profile/" }

    ensures name { metadata.NAME.now ≡ codes "name" }
    ensures namespace { metadata.NAMESPACE.now ≡ codes "namespace" }
    ensures labels { metadata.LABELS.now ≡ codes "labels" }
    ensures creation_timestamp { metadata.CREATION_TIMESTAMP.now ≡ codes "creationTimestamp" }
    ensures annotations { metadata.ANNOTATIONS.now ≡ codes "annotations" }
    ensures dry_run { metadata.DRY_RUN.now ≡ codes "istio.io/dry-run" }
    ensures true_word { metadata.TRUE_WORD.now ≡ codes "true" }

    ensures containers { CONTAINERS.now ≡ codes "containers" }
    ensures ports { PORTS.now ≡ codes "ports" }
    ensures container_port { CONTAINER_PORT.now ≡ codes "containerPort" }
    ensures protocol { PROTOCOL.now ≡ codes "protocol" }
    ensures tcp { TCP.now ≡ codes "TCP" }

    ensures selector { SELECTOR.now ≡ codes "selector" }
    ensures port { PORT.now ≡ codes "port" }
    ensures target_port { TARGET_PORT.now ≡ codes "targetPort" }
    ensures app_protocol { APP_PROTOCOL.now ≡ codes "appProtocol" }

    ensures root_namespace { mesh.ROOT_NAMESPACE_FIELD.now ≡ codes "rootNamespace" }
    ensures extension_providers { mesh.EXTENSION_PROVIDERS.now ≡ codes "extensionProviders" }
    ensures http { mesh.ENVOY_EXT_AUTHZ_HTTP.now ≡ codes "envoyExtAuthzHttp" }
    ensures grpc { mesh.ENVOY_EXT_AUTHZ_GRPC.now ≡ codes "envoyExtAuthzGrpc" }
    ensures authorizer_service { mesh.SERVICE.now ≡ codes "service" }
    ensures fail_open { mesh.FAIL_OPEN.now ≡ codes "failOpen" }
{}
