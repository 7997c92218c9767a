//! Worked examples, byte by byte, as docs/PROTOCOL.md has them. They are for contracts alone.
ghost use Rattle.std.specs.Prelude.{◌≡◌, None};
ghost use Rattle.kfs_call.specs.Examples.{lease_call};
ghost use Rattle.kfs_model.specs.Examples.Example.SpellingCases.{create_a_log_bytes};
ghost use Rattle.kfs_server.specs.Asking.{Asks};
ghost use Rattle.kfs_server.specs.Examples.{forged_reply, forged_reply_bytes, lease_frame, lease_frame_bytes, leased_reply, leased_reply_bytes, leases_frame, leases_frame_bytes, leases_reply, leases_reply_bytes, names_frame, names_frame_bytes, names_reply, names_reply_bytes, node_frame, node_frame_bytes, node_reply, node_reply_bytes, plan_frame, plan_frame_bytes, plan_reply, plan_reply_bytes, state_frame, state_frame_bytes, state_reply, state_reply_bytes};
ghost use Rattle.kfs_server.specs.Frames.Frame.{frame_bytes};
ghost use Rattle.kfs_server.specs.LookUps.LookUp.{AsksLookUp, Leases, Names, Node, Plan, State};
ghost use Rattle.kfs_server.specs.Replies.Reply.{reply_bytes};

/// Client 7 asks for a write lease on the root: 29 bytes.
#[tactic(auto, unfolding(kfs_model::specs::Spelling::number16, kfs_model::specs::Spelling::number32, kfs_model::specs::Spelling::number64))]
pub fn frames()
    ensures lease { frame_bytes lease_frame ≡ lease_frame_bytes }
    ensures asks { Asks lease_frame lease_call }
{}

/// It has the lease: 18 bytes. A frame of client 8 with the same call is refused, in 14 bytes.
#[tactic(auto, unfolding(kfs_model::specs::Spelling::number16, kfs_model::specs::Spelling::number32, kfs_model::specs::Spelling::number64))]
pub fn replies()
    ensures leased { reply_bytes 1 leased_reply ≡ leased_reply_bytes }
    ensures forged { reply_bytes 2 forged_reply ≡ forged_reply_bytes }
{}

/// Client 7 asks for node 1, the front for the state, and client 7 for names, for its leases and for the plan of a log: 17,
/// 13, 21, 21 and 38 bytes.
#[tactic(auto, unfolding(kfs_model::specs::Spelling::number16, kfs_model::specs::Spelling::number32, kfs_model::specs::Spelling::number64))]
pub fn look_ups()
    ensures node { frame_bytes node_frame ≡ node_frame_bytes }
    ensures node_asked { AsksLookUp node_frame (Node 1) }
    ensures state { frame_bytes state_frame ≡ state_frame_bytes }
    ensures state_asked { AsksLookUp state_frame State }
    ensures names { frame_bytes names_frame ≡ names_frame_bytes }
    ensures names_asked { AsksLookUp names_frame (Names 1 260 None) }
    ensures leases { frame_bytes leases_frame ≡ leases_frame_bytes }
    ensures leases_asked { AsksLookUp leases_frame (Leases 0 65536) }
    ensures plan { frame_bytes plan_frame ≡ plan_frame_bytes }
    ensures plan_asked { AsksLookUp plan_frame (Plan create_a_log_bytes) }
{}

/// Node 1 is a directory, what the state is, the names of node 1, the leases of client 7, and the plan: 31, 34, 23, 24 and 59
/// bytes.
#[tactic(auto, unfolding(kfs_model::specs::Spelling::number16, kfs_model::specs::Spelling::number32, kfs_model::specs::Spelling::number64))]
pub fn found()
    ensures node { reply_bytes 3 node_reply ≡ node_reply_bytes }
    ensures state { reply_bytes 4 state_reply ≡ state_reply_bytes }
    ensures names { reply_bytes 5 names_reply ≡ names_reply_bytes }
    ensures leases { reply_bytes 6 leases_reply ≡ leases_reply_bytes }
    ensures plan { reply_bytes 7 plan_reply ≡ plan_reply_bytes }
{}
