//! Bytes of states that make no desk: the first thing that is wrong is told.

use crate::spelled::encodings::has_one_encoding;
use crate::spelled::outcome::{Kind, Outcome, read_as};
use Outcome::{NoDesk, Same};
use RestoreFault::{BadClient, BadClients, BadImage, BadLease, BrokenRule};
use kfs_call_desk::RestoreFault;
use kfs_desk::BeginFault;
use kfs_image::ImageFault;
use kfs_lease::LeaseRowFault;
use kfs_mode::ClientFault;
use kfs_shape::Finding;
use std::alloc::{AllocError, Global};

/// Parts of bytes that stand one behind another.
type Parts = &'static [&'static [u8]];

/// Of a state the moment and the counts, clients, leases, its image, and what its bytes come to.
#[derive(Clone, Copy)]
struct Case {
    head: Parts,
    clients: Parts,
    leases: Parts,
    image: Parts,
    due: Outcome,
}

/// The header of a state up to its counts: moment 5.
const HEAD: &[u8] = b"KDSK\x01\0\0\0\0\0\0\0\x05";

const NONE: &[u8] = b"\0\0\0\0";

const ONE: &[u8] = b"\0\0\0\x01";

const TWO: &[u8] = b"\0\0\0\x02";

/// Client 7 with the grant 2 to 99, and client 8 with 100 to 65,536. Both have uid and gid 1000 and no further group.
const SEVEN: &[u8] = b"\0\0\0\x07\0\0\x03\xe8\0\0\x03\xe8\0\0\0\0\x02\0\0\0\x63\0";

const EIGHT: &[u8] = b"\0\0\0\x08\0\0\x03\xe8\0\0\x03\xe8\0\0\0\0\x64\0\x01\0\0\0";

/// Client 7 with a grant from 0 to 9, from 2 to 65,537, and from 120 to 129; client 8 with one from 99 to 129.
const FROM_0: &[u8] = b"\0\0\0\x07\0\0\x03\xe8\0\0\x03\xe8\0\0\0\0\0\0\0\0\x09\0";

const TO_65537: &[u8] = b"\0\0\0\x07\0\0\x03\xe8\0\0\x03\xe8\0\0\0\0\x02\0\x01\0\x01\0";

const FROM_120: &[u8] = b"\0\0\0\x07\0\0\x03\xe8\0\0\x03\xe8\0\0\0\0\x78\0\0\0\x81\0";

const FROM_99: &[u8] = b"\0\0\0\x08\0\0\x03\xe8\0\0\x03\xe8\0\0\0\0\x63\0\0\0\x81\0";

/// Leases on node 1 of clients 7, 8 and 9, to read or to write, up to a moment.
const SEVEN_READS_TO_6: &[u8] = b"\0\0\0\x01\0\0\0\x07\0\0\0\0\0\0\0\0\x06";

const SEVEN_WRITES_TO_6: &[u8] = b"\0\0\0\x01\0\0\0\x07\x01\0\0\0\0\0\0\0\x06";

const EIGHT_READS_TO_5: &[u8] = b"\0\0\0\x01\0\0\0\x08\0\0\0\0\0\0\0\0\x05";

const EIGHT_READS_TO_6: &[u8] = b"\0\0\0\x01\0\0\0\x08\0\0\0\0\0\0\0\0\x06";

const EIGHT_READS_TO_7: &[u8] = b"\0\0\0\x01\0\0\0\x08\0\0\0\0\0\0\0\0\x07";

const EIGHT_WRITES_TO_6: &[u8] = b"\0\0\0\x01\0\0\0\x08\x01\0\0\0\0\0\0\0\x06";

const NINE_READS_TO_6: &[u8] = b"\0\0\0\x01\0\0\0\x09\0\0\0\0\0\0\0\0\x06";

/// A lease on node 2, which there isn't.
const ON_NODE_2: &[u8] = b"\0\0\0\x02\0\0\0\x07\0\0\0\0\0\0\0\0\x06";

/// The parts of an image with the root directory alone, of no owner, over tiers of 8 blocks: its front; tiers and counts
/// of rows; the number of its node; the rest, but for the last byte.
const VERSION_2: &[u8] = b"KIMG\x02";

const VERSION_3: &[u8] = b"KIMG\x03";

const TIERS: &[u8] = b"\0\0\0\x08\0\0\0\x08\0\0\0\x08\0\0\0\x01\0\0\0\0\0\0\0\0";

const NODE: &[u8] = b"\x01\x01\xff\0\0\0\0\0\0\0\0\0\x01\0\0\0\0\0\0\0";

const LAST: &[u8] = b"\0";

const IMAGE: Parts = &[VERSION_2, TIERS, ONE, NODE, LAST];

/// Two clients of which each is wrong beside the other, and the second by itself; two leases, the second of a client that
/// there isn't. So a case with them shows what is told first.
const WRONG: Parts = &[SEVEN, FROM_0];

const STRANGE: Parts = &[SEVEN_READS_TO_6, NINE_READS_TO_6];

const TWO_OF_EACH: Parts = &[HEAD, TWO, TWO];

const RIGHT: Case = Case {
    head: TWO_OF_EACH,
    clients: &[SEVEN, EIGHT],
    leases: &[SEVEN_READS_TO_6, EIGHT_READS_TO_7],
    image: IMAGE,
    due: Same,
};

const CASES: [Case; 17] = [
    RIGHT,
    Case {
        head: &[HEAD, NONE, NONE],
        clients: &[],
        leases: &[],
        image: IMAGE,
        due: Same,
    },
    Case {
        head: TWO_OF_EACH,
        clients: WRONG,
        leases: STRANGE,
        image: &[VERSION_3, TIERS, ONE, NODE, LAST],
        due: NoDesk(BadImage(ImageFault::BadImageHeader)),
    },
    Case {
        head: TWO_OF_EACH,
        clients: WRONG,
        leases: STRANGE,
        image: &[VERSION_2, TIERS, ONE, NODE],
        due: NoDesk(BadImage(ImageFault::BadImageRow(0))),
    },
    Case {
        head: TWO_OF_EACH,
        clients: WRONG,
        leases: STRANGE,
        image: &[VERSION_2, TIERS, ONE, NODE, LAST, LAST],
        due: NoDesk(BadImage(ImageFault::ImageTrailing)),
    },
    Case {
        head: TWO_OF_EACH,
        clients: WRONG,
        leases: STRANGE,
        image: &[VERSION_2, TIERS, TWO, NODE, LAST],
        due: NoDesk(BrokenRule(Finding { rule: 2, number: 1 })),
    },
    Case {
        head: TWO_OF_EACH,
        clients: WRONG,
        leases: STRANGE,
        image: IMAGE,
        due: NoDesk(BadClient(1, ClientFault::BadGrant)),
    },
    Case {
        head: &[HEAD, ONE, TWO],
        clients: &[TO_65537],
        leases: STRANGE,
        image: IMAGE,
        due: NoDesk(BadClient(0, ClientFault::BadGrant)),
    },
    Case {
        head: TWO_OF_EACH,
        clients: &[SEVEN, EIGHT],
        leases: STRANGE,
        image: IMAGE,
        due: NoDesk(BadLease(LeaseRowFault::UnknownClient(1))),
    },
    Case {
        head: &[HEAD, TWO, ONE],
        clients: &[SEVEN, EIGHT],
        leases: &[ON_NODE_2],
        image: IMAGE,
        due: NoDesk(BadLease(LeaseRowFault::NoSuchNode(0))),
    },
    Case {
        head: TWO_OF_EACH,
        clients: &[SEVEN, EIGHT],
        leases: &[SEVEN_READS_TO_6, EIGHT_READS_TO_5],
        image: IMAGE,
        due: NoDesk(BadLease(LeaseRowFault::Past(1))),
    },
    Case {
        head: TWO_OF_EACH,
        clients: &[SEVEN, EIGHT],
        leases: &[EIGHT_READS_TO_6, SEVEN_READS_TO_6],
        image: IMAGE,
        due: NoDesk(BadLease(LeaseRowFault::NotAscending(1))),
    },
    Case {
        head: TWO_OF_EACH,
        clients: &[SEVEN, EIGHT],
        leases: &[SEVEN_WRITES_TO_6, SEVEN_WRITES_TO_6],
        image: IMAGE,
        due: NoDesk(BadLease(LeaseRowFault::NotAscending(1))),
    },
    Case {
        head: TWO_OF_EACH,
        clients: &[SEVEN, EIGHT],
        leases: &[SEVEN_READS_TO_6, EIGHT_WRITES_TO_6],
        image: IMAGE,
        due: NoDesk(BadLease(LeaseRowFault::LeaseHeld(1))),
    },
    Case {
        head: TWO_OF_EACH,
        clients: &[SEVEN, SEVEN],
        leases: STRANGE,
        image: IMAGE,
        due: NoDesk(BadLease(LeaseRowFault::UnknownClient(1))),
    },
    Case {
        head: &[HEAD, TWO, NONE],
        clients: &[SEVEN, FROM_120],
        leases: &[],
        image: IMAGE,
        due: NoDesk(BadClients(BeginFault::ClientTwice(1))),
    },
    Case {
        head: &[HEAD, TWO, NONE],
        clients: &[SEVEN, FROM_99],
        leases: &[],
        image: IMAGE,
        due: NoDesk(BadClients(BeginFault::GrantOverlap(1))),
    },
];

fn push_parts(out: &mut Vec<u8, Global>, parts: Parts) -> Result<(), AllocError> {
    for part in parts {
        out.extend_from_slice(*part)?;
    }
    Ok(())
}

/// The bytes of a case.
fn bytes_of(alloc: Global, case: &Case) -> Result<Vec<u8>, AllocError> {
    let mut out = Vec::new(alloc);
    push_parts(&mut out, case.head)?;
    push_parts(&mut out, case.clients)?;
    push_parts(&mut out, case.leases)?;
    push_parts(&mut out, case.image)?;
    Ok(out)
}

/// The bytes of a state that makes a desk: two clients, and a lease of each.
pub fn right_state(alloc: Global) -> Result<Vec<u8>, AllocError> {
    bytes_of(alloc, &RIGHT)
}

fn is_told(alloc: Global, case: &Case) -> bool {
    match bytes_of(alloc, case) {
        Ok(bytes) => read_as(Kind::Desk, alloc, &bytes) == case.due,
        Err(_) => false,
    }
}

#[test]
fn the_first_fault_is_told(rt: HostRuntime) {
    for (number, case) in CASES.iter().enumerate() {
        assert!(&rt; is_told(rt.alloc(), case), "{number}");
    }
}

#[test]
fn other_bytes_are_refused_or_are_another_state(rt: HostRuntime) {
    let bytes = right_state(rt.alloc()).expect(&rt, "memory");
    assert!(&rt; has_one_encoding(Kind::Desk, rt.alloc(), &bytes));
}
