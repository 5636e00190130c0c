//! In which order the faults of partings, gatherings and texts come, of which want of memory is one.
use super::refusing::{Heap, Refusal};
use ell_ops::Op;
use ell_ops::Reply::Yes;
use ell_parts::{GatherFault, PartFault, Parts, gather};
use ell_text::{TextFault, read_bulk};

// The keys of these are 5 and 6.
const OPS: [Op; 3] = [Op::Insert(5, 50), Op::Find(6), Op::Delete(5)];

#[test]
fn counts_and_owners_are_tested_before_memory(rt: HostRuntime) {
    let heap = Heap::new(rt.alloc());
    heap.refuse(Refusal::From(1));
    for (owners, workers, want) in [
        ([0, 0, 0].as_slice(), 0, PartFault::BadWorkers),
        (&[0, 1], 2, PartFault::OwnerCount),
        (&[0, 2, 0], 2, PartFault::StrangerOwner { at: 1 }),
        (&[0, 1, 1], 2, PartFault::NoMemory),
    ] {
        let fault = Parts::by_owner(&heap, &OPS, owners, workers).err();
        assert!(rt; fault == Some(want));
    }
    for workers in [0, 65] {
        let striped = Parts::striped(&heap, &OPS, workers).err();
        let ranged = Parts::ranged(&heap, &OPS, workers).err();
        assert!(rt; striped == Some(PartFault::BadWorkers) && ranged == striped);
    }
    assert!(rt; heap.growths() == 1);
    heap.stop();
    let (first, second) = (0, 2);
    let split = Parts::by_owner(&heap, &OPS, &[0, 1, 1], 2).err();
    assert!(rt; split == Some(PartFault::KeySplit { first, second }));
}

#[test]
fn memory_is_tested_before_replies(rt: HostRuntime) {
    let heap = Heap::new(rt.alloc());
    for (items, fault) in [
        (
            [(0, Yes), (0, Yes)].as_slice(),
            GatherFault::Doubled { at: 0 },
        ),
        (&[(2, Yes)], GatherFault::Stranger { at: 2 }),
        (&[(1, Yes)], GatherFault::Missing { at: 0 }),
    ] {
        let pieces = [items.to_vec(rt.alloc()).expect(&rt, "no memory")];
        // A gathering asks for memory twice.
        for number in 1..3 {
            heap.refuse(Refusal::From(number));
            let refused = gather(&heap, 2, &pieces).err();
            assert!(rt; refused == Some(GatherFault::NoMemory), "{fault}");
        }
        heap.stop();
        assert!(rt; gather(&heap, 2, &pieces).err() == Some(fault));
    }
}

#[test]
fn memory_is_wanted_at_a_start_key_or_an_operation(rt: HostRuntime) {
    let texts: [(&[u8], TextFault, u64); 8] = [
        (b"insert 007\ninsert 5\n", TextFault::BadKey { line: 1 }, 0),
        (b"start 007\nstart 5\n", TextFault::BadKey { line: 1 }, 0),
        (b"start 5\nstart 5\n", TextFault::NoMemory, 1),
        (b"# none\n\nfind 5 \n", TextFault::BadKey { line: 3 }, 0),
        (b"insert 5\ninsert 007\n", TextFault::NoMemory, 1),
        (b"version 2\ninsert 5\n", TextFault::BadValue { line: 2 }, 0),
        (b"version 2\nstart 5 50\nstart 5\n", TextFault::NoMemory, 1),
        (
            b"version 2\ninsert 5 50\ninsert 5\n",
            TextFault::NoMemory,
            1,
        ),
    ];
    let heap = Heap::new(rt.alloc());
    for (text, want, growths) in texts {
        heap.refuse(Refusal::From(1));
        assert!(rt; read_bulk(&rt, &heap, text).err() == Some(want));
        assert!(rt; growths <= heap.growths());
    }
}
