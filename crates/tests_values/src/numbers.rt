//! Each call of the numbers, with ample memory.
ghost use Rattle.std.specs.Prelude.{◌≡◌, ◌++◌, [], ◌∷◌, nat_eq, true, false, OnOk, IfOk};
ghost use Rattle.std.specs.List.{list_any};

use fed_io::NoRoom;
use fed_numbers::Numbers;
use std::alloc::Global;
use std::process::Abort;
use std::test::Fail;

// Three that rise, and then one that does not.
fn filled(alloc: Global) -> Result<Numbers, NoRoom>
    ensures { IfOk result (λ numbers. numbers ≡ 3 ∷ 4 ∷ 9 ∷ 5 ∷ []) }
{
    let mut numbers = Numbers::new(alloc);
    numbers.insert(3)?;
    numbers.insert(4)?;
    numbers.insert(9)?;
    numbers.insert(5)?;
    Ok(numbers)
}

#[test]
fn numbers_stand_in_order_of_entering(rt: HostRuntime) -> Result<(), Fail> {
    let mut numbers = filled(rt.alloc())?;
    let places = [3, 9, 5, 6, 10].map(|number| numbers.place_of(number));
    assert_eq!(rt; places, [Some(0), Some(2), Some(3), None, None]);
    assert!(rt; numbers.has(4) && numbers.has(5) && !numbers.has(2));
    numbers.insert(12)?;
    assert_eq!(rt;
        numbers.list(rt.alloc())?.as_slice(),
        [3, 4, 9, 5, 12].as_slice()
    );
    assert_eq!(rt; numbers.len(), 5);
    Ok(())
}

#[test]
fn the_last_number_is_taken_out(rt: HostRuntime) -> Result<(), Fail> {
    let mut numbers = filled(rt.alloc())?;
    assert_eq!(rt; numbers.take_last(), Some(5));
    assert_eq!(rt; numbers.take_last(), Some(9));
    if !numbers.has(6) {
        numbers.insert(6)?;
    }
    assert_eq!(rt; numbers.list(rt.alloc())?.as_slice(), [3, 4, 6].as_slice());
    let mut none = Numbers::new(rt.alloc());
    assert_eq!(rt; none.take_last(), None);
    Ok(())
}
