// Plans and tables by examples.

ghost use Rattle.std.specs.Prelude.{◌≡◌, ◌≢◌, ◌<◌, ◌≤ℤ◌, ◌^◌, ◌∷◌, [], pos, IfOk};

use period_keys::Year;
use series_tables::{Input, Item, Kind, Plan, PlanCause, PlanError, Tables};
use std::alloc::Global;
use std::test::Fail;

/// A text, the line that is refused, and the cause.
type Row = (&'static [u8], u64, PlanCause);

/// A refused text for each cause, in their order, and one for which two causes apply.
const REFUSED: [Row; 7] = [
    (b"start,2021\nitem,A B,\n", 2, PlanCause::Form),
    (b"\n\n# plan\n", 4, PlanCause::NoStart),
    (
        b"start,2021\nitem,A,\nitem,B,\nitem,A,\n",
        4,
        PlanCause::Twice,
    ),
    (b"start,2021\nreference,2085\n", 2, PlanCause::Year),
    (b"start,2021\nitem,A,B\nitem,B,\n", 2, PlanCause::NoParent),
    (b"start,2021\nitem,A,\nitem,A,B\n", 3, PlanCause::Twice),
    (b"start,2201\n", 1, PlanCause::Year),
];

/// Plans, their first year, the years from there to the reference year, and their number of items.
const PLANS: [(&'static [u8], u16, u16, u16); 3] = [
    (b"start,2200\nreference,2263", 2200, 63, 0),
    (b"# plan\n\nstart,2021\r\n#,,\"\nitem,FOOD,\n\n", 2021, 0, 1),
    (
        b"\xEF\xBB\xBF\"start\",2021\nitem,a_Z.0-9,\nitem,ABCDEFGHIJKLMNOPQRSTUVWXYZ012345,a_Z.0-9",
        2021,
        0,
        2,
    ),
];

/// A tree of four items, and the parent of each and whether it is a leaf.
const TREE: &'static [u8] =
    b"start,2021\nitem,TOTAL,\nitem,FOOD,TOTAL\nitem,SERV,\"TOTAL\"\nitem,RENT,SERV\n";

const PLACES: [(Option<u16>, bool); 4] = [
    (None, false),
    (Some(0), true),
    (Some(0), false),
    (Some(2), true),
];

/// The refusal of a text; none where it is a plan or memory is wanting.
fn refusal_of(alloc: Global, text: &[u8]) -> Option<(u64, PlanCause)> {
    match Plan::read(alloc, text) {
        Err(PlanError::Fault { line, cause }) => Some((line, cause)),
        Err(PlanError::Memory) | Ok(_) => None,
    }
}

#[test]
fn a_plan_is_refused_at_its_first_line_for_its_first_cause(rt: HostRuntime) {
    for (text, line, cause) in REFUSED {
        assert_eq!(&rt;
            refusal_of(rt.alloc(), text),
            Some((line, cause)),
            "{text:?}"
        );
    }
}

#[test]
fn plans_are_read_with_all_their_spellings(rt: HostRuntime) -> Result<(), Fail> {
    for (text, start, reference, len) in PLANS {
        let plan = Plan::read(rt.alloc(), text)?;
        assert_eq!(&rt; (plan.start(), plan.len()), (start, len), "{text:?}");
        assert_eq!(&rt; plan.reference(), Year(reference), "{text:?}");
    }
    Ok(())
}

/// Adds the line of an item whose name is a number of three digits.
fn push_item(text: &mut Vec<u8>, number: u16) -> Result<(), Fail>
    requires { number < 1000 }
{
    let [hundreds, tens, ones] = [number / 100, number / 10 % 10, number % 10];
    text.extend_from_slice(b"item,")?;
    text.push(b'0' + hundreds as u8)?;
    text.push(b'0' + tens as u8)?;
    text.push(b'0' + ones as u8)?;
    text.extend_from_slice(b",\n")?;
    Ok(())
}

#[test]
fn a_plan_has_512_items(rt: HostRuntime) -> Result<(), Fail> {
    let alloc = rt.alloc();
    let mut text = Vec::from_slice(alloc, b"start,2021\n")?;
    for number in 0..512_u16 {
        push_item(&mut text, number)?;
    }
    let plan = Plan::read(alloc, &text)?;
    assert_eq!(rt; (plan.len(), plan.find(b"511")), (512, Some(511)));
    push_item(&mut text, 512)?;
    assert_eq!(rt; refusal_of(alloc, &text), Some((514, PlanCause::TooMany)));
    Ok(())
}

/// An item of a name of one letter.
fn item(alloc: Global, letter: u8, parent: Option<u16>) -> Result<Item, Fail>
    ensures name { IfOk result (λ item. item.name.items ≡ letter ∷ []) }
    ensures parent { IfOk result (λ item. item.parent ≡ parent) }
{
    Ok(Item {
        name: Vec::from_slice(alloc, &[letter])?,
        parent,
    })
}

#[test]
fn a_plan_is_made_of_its_items(rt: HostRuntime) -> Result<(), Fail> {
    let alloc = rt.alloc();
    let items = [item(alloc, b'T', None)?, item(alloc, b'A', Some(0))?];
    let plan = Plan::new(alloc, 2000, Year(3), &items)?;
    assert_eq!(rt;
        (plan.start(), plan.reference(), plan.len()),
        (2000, Year(3), 2)
    );
    assert_eq!(rt; (plan.find(b"A"), plan.parent(1)), (Some(1), Some(0)));
    assert_eq!(rt; (plan.is_leaf(0), plan.is_leaf(1)), (false, true));
    Ok(())
}

#[test]
fn a_plan_gives_its_items_and_is_copied(rt: HostRuntime) -> Result<(), Fail> {
    let plan = Plan::read(rt.alloc(), TREE)?.copy(rt.alloc())?;
    assert_eq!(rt; (plan.start(), plan.is_empty()), (2021, false));
    assert_eq!(rt; plan.len(), 4);
    assert_eq!(rt; plan.name(2), b"SERV".as_slice());
    for item in 0..plan.len() {
        assert_eq!(rt;
            PLACES.get(item as usize).copied(),
            Some((plan.parent(item), plan.is_leaf(item)))
        );
    }
    assert_eq!(rt; (plan.find(b"SERV"), plan.find(b"GOODS")), (Some(2), None));
    Ok(())
}

#[test]
fn tables_give_the_last_values_of_a_leaf(rt: HostRuntime) -> Result<(), Fail> {
    let alloc = rt.alloc();
    let plan = Plan::read(alloc, b"start,2021\nitem,FOOD,\nitem,SERV,\n")?;
    assert_eq!(rt; plan.len(), 2);
    let mut tables = Tables::new(alloc, &plan)?;
    set(&mut tables, Kind::Indicator, 0, 100);
    set(&mut tables, Kind::Indicator, 1, 7);
    set(&mut tables, Kind::Price, 1, 9);
    set(&mut tables, Kind::Indicator, 0, 101);
    let input = tables.leaf_input(1)?;
    assert_eq!(rt; input.ind.as_slice(), [101, 7].as_slice());
    assert_eq!(rt; input.price.as_slice(), [None, Some(9)].as_slice());
    assert!(rt; input.bench.is_empty());
    Ok(())
}

/// Gives the second item a value at a quarter.
fn set(tables: &mut Tables, kind: Kind, period: u16, value: i64)
    requires items { tables.old.items ≡ 2 }
    requires kind { kind ≢ Kind.Benchmark }
    requires period { period < 4 }
    requires least { pos 1 ≤ℤ value }
    requires most { value ≤ℤ pos (10 ^ 9) }
    ensures { tables.new.items ≡ 2 }
{
    tables.set(&Input {
        kind,
        leaf: 1,
        period,
        value,
    });
}
