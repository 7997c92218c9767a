//! Each public name, as a user brings it in.

/// Logs and plans.
pub mod entry {
    pub use kfs_entry::{
        ENTRY_LIMIT, Entry, GREATEST_MODE, GREATEST_MODE_OF_VERSION_1, Header, KeptName, Kind,
        LATEST_VERSION, Log, Name, NameRow, NodeRow, PAYLOAD_LIMIT, Piece, Plan, RowList, Source,
        Span, SpellFault, decode_log, decode_plan, encode_log, encode_plan,
    };
}

/// Clients.
pub mod mode {
    pub use kfs_mode::{
        Access, AccessFault, Class, Client, ClientFault, GROUP_LIMIT, Want, class_of, find_client,
        may, permission,
    };
}

/// Images.
pub mod image {
    pub use kfs_image::{
        Answer, BLOCK_SIZE, Cell, Edit, Extent, ExtentRow, GREATEST_MODE, GREATEST_NUMBER, Header,
        HeaderPage, Image, ImageFault, Kind, LINK_LIMIT, Name, Page, RawImage, RawNode, ReadFault,
        SIZE_LIMIT, Shape, TIER_LIMIT, TierSizes, decode_image, encode_image, look, read_file,
    };
}

/// The rules of a raw image, and the change of a landing.
pub mod shape {
    pub use kfs_shape::{
        BlockRow, BlockRun, Fill, Finding, Net, RawImage, ShapeFault, check_shape, net_apply,
    };
}

/// The checker that accepts images.
pub mod fsck {
    pub use kfs_fsck::laws::{least_of_two_lists, old_image, saved_image};
    pub use kfs_fsck::{Finding, FsckFault, Image, RawImage, fsck};
}

/// Moves of blocks.
pub mod migrate {
    pub use kfs_migrate::{MOVE_LIMIT, Move, MoveFault, apply_moves, check_moves};
}

/// Leases.
pub mod lease {
    pub use kfs_lease::{Act, LeaseFault, LeaseKind, LeaseRow, LeaseRowFault, Leases};
}

/// Entries against a view.
pub mod judge {
    pub use kfs_judge::laws::{cells_decide, clean_is_allowed, marks_give_bytes};
    pub use kfs_judge::{
        Access, AccessFault, EntryFault, FileSize, Keeping, KeptRead, KeptReads, Net, Read,
        ReadAnswer, Reads, Reason, View, Walk, judge_entries, judge_entries_keeping,
    };
}

/// Submissions against a view.
pub mod plan {
    pub use kfs_plan::{
        Back, Fault, Judged, KeptOutcome, Outcome, RowFault, Submission, Why, check_plan, judge,
        judge_bytes, kept_outcome, sweep,
    };
}

/// The desk.
pub mod desk {
    pub use kfs_desk::{
        Act, ActFault, ActReply, Back, BeginBack, BeginFault, Desk, Docket, Done, Move, MoveFault,
        Reply, ResumeBack, SubmissionsBack, Unanswered, Why,
    };
}

/// Calls, answers and states as bytes.
pub mod call {
    pub use kfs_call::{
        ANSWER_LIMIT, AnswerRow, Call, ClientRow, FaultRow, FieldFault, LeaseKind, LeaseRow, Move,
        StateFault, StateRows, Told, decode_answer, decode_call, decode_state, encode_answer,
        encode_call, encode_state, spell_answer,
    };
    pub use kfs_call_desk::{
        CallFault, Called, EncodeFault, RestoreFault, answer_row, call, call_judged, encode_desk,
        restore_alone, told,
    };
}

/// A desk whose answers outlive a crash, and a desk from the bytes of a state in several threads.
pub mod kept {
    pub use kfs_kept::{
        AdmitFault, CallsFault, CreateBack, Early, Judges, Kept, OpenBack, OpenFault, SaveFault,
        restore,
    };
}

/// Workers, scripts of their steps, and a desk that threads share.
pub mod workers {
    pub use kfs_workers::laws::moves_leave_verdicts;
    pub use kfs_workers::{
        BatchBack, BatchEnd, Begun, DeskView, DocketRow, Docketed, Gate, Landing, Left, Pass,
        ScriptBack, ScriptEnd, Shared, SharedBack, SharedWant, Step, Unreturned, WORKERS,
        run_batch, run_script,
    };
}

/// The lines of answers.
pub mod report {
    pub use kfs_program::{act_line, fault_line, finding_line, node_line, reply_line};
}

/// The program.
pub mod program {
    pub use kfs_plan_maker::make_plan;
    pub use kfs_program::{EngineFault, LINE_LIMIT, engine, run_words};
}
