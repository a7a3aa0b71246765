// Documents at their limits, and past them.
use fc_library::{DocumentRule, LibFault};
use fc_scripts::script_from_slice;
use std::alloc::Global;
use std::test::Fail;

// How many steps a document says, or which rule it breaks or which text is no step.
#[derive(Clone, Copy, Debug, PartialEq, Eq)]
enum Found {
    Steps(usize),
    Broken(DocumentRule),
    Wrong(usize),
}

fn reading(alloc: Global, document: &str) -> Result<Found, Fail> {
    match script_from_slice(alloc, document.as_bytes()) {
        Ok(script) => Ok(Found::Steps(script.steps().len())),
        Err(LibFault::Rule(rule)) => Ok(Found::Broken(rule)),
        Err(LibFault::StepText(place)) => Ok(Found::Wrong(place)),
        Err(_) => Err(Fail::from("another fault")),
    }
}

// How many elements there are, controllers and transactions, and how many participants each of these has, with how many changes.
type Counts = (u32, u32, u32, u32, u32);

fn put_change(alloc: Global, document: &mut String, element: u32) -> Result<(), Fail> {
    let head = format!(in alloc; "[[transaction.change]]\nelement = {element}\n")?;
    document.push_str(head.as_str())?;
    document.push_str("body = \"lfb 00001001 00000001\\n  DEL\\n    path 5\\n\"\n")?;
    Ok(())
}

fn put_transaction(
    alloc: Global,
    document: &mut String,
    number: u32,
    participants: u32,
    changes: u32,
) -> Result<(), Fail> {
    let head = format!(in alloc; "[[transaction]]\nname = \"t{number}\"\n")?;
    document.push_str(head.as_str())?;
    for participant in 0..participants {
        for _ in 0..changes {
            put_change(alloc, document, participant % 1_000 + 1)?;
        }
    }
    Ok(())
}

// A document of so much with these steps, and more lines behind it.
fn document(alloc: Global, counts: Counts, steps: &str, more: &str) -> Result<String, Fail> {
    let mut document = format!(in alloc; "steps = [{steps}]\n")?;
    if counts.0 == 0 {
        document.push_str("element = []\n")?;
    }
    for element in 0..counts.0 {
        let id = element % 1_000 + 1;
        let table = format!(in alloc; "[[element]]\nid = {id}\nce = 0x40000001\n")?;
        document.push_str(table.as_str())?;
    }
    for controller in 0..counts.1 {
        let id = 0x4000_0001 + controller % 100;
        let table = format!(in alloc; "[[controller]]\nid = {id}\n")?;
        document.push_str(table.as_str())?;
    }
    for number in 0..counts.2 {
        put_transaction(alloc, &mut document, number, counts.3, counts.4)?;
    }
    document.push_str(more)?;
    Ok(document)
}

const UNLISTED: &str = "[[transaction]]\nname = \"\"\nchange = [{ element = 999, body = \"\" }]\n";

#[test]
fn limits_are_kept_or_passed(rt: HostRuntime) -> Result<(), Fail> {
    let alloc = rt.alloc();
    for (counts, more, wanted) in [
        ((255, 16, 0, 0, 0), "", Found::Steps(0)),
        ((256, 1, 0, 0, 0), "", Found::Broken(DocumentRule::TooMany)),
        ((1, 17, 0, 0, 0), "", Found::Broken(DocumentRule::TooMany)),
        ((1, 1, 1_024, 1, 1), "", Found::Steps(0)),
        (
            (1, 1, 1_025, 1, 1),
            "",
            Found::Broken(DocumentRule::TooMany),
        ),
        ((1, 1, 1, 1, 256), "", Found::Steps(0)),
        ((1, 1, 1, 1, 257), "", Found::Broken(DocumentRule::TooMany)),
        ((65, 1, 1, 65, 1), "", Found::Steps(0)),
        ((255, 1, 1, 255, 1), "", Found::Steps(0)),
        (
            (1, 17, 0, 0, 0),
            UNLISTED,
            Found::Broken(DocumentRule::TooMany),
        ),
        (
            (1, 16, 0, 0, 0),
            UNLISTED,
            Found::Broken(DocumentRule::Element),
        ),
    ] {
        let document = document(alloc, counts, "", more)?;
        assert_eq!(rt; reading(alloc, document.as_str())?, wanted);
    }
    Ok(())
}

#[test]
fn each_delivery_is_a_step(rt: HostRuntime) -> Result<(), Fail> {
    let alloc = rt.alloc();
    for (steps, more, wanted) in [
        ("'deliver 1-100000'", "", Found::Steps(100_000)),
        (
            "'deliver 1-99998', 'stop 1', 'deliver 0'",
            "",
            Found::Steps(100_000),
        ),
        (
            "'deliver 5-100005'",
            "",
            Found::Broken(DocumentRule::TooMany),
        ),
        (
            "'deliver 1-100000', 'stop 1'",
            "",
            Found::Broken(DocumentRule::TooMany),
        ),
        (
            "'deliver 1-100000', 'frob'",
            "",
            Found::Broken(DocumentRule::TooMany),
        ),
        ("'deliver 1-99999', 'frob'", "", Found::Wrong(2)),
        ("'frob', 'deliver 1-99999'", "", Found::Wrong(1)),
        ("'deliver 1-99999', 'deliver 9-7'", "", Found::Wrong(2)),
        (
            "'deliver 0-18446744073709551615'",
            "",
            Found::Broken(DocumentRule::TooMany),
        ),
        (
            "'deliver 0-18446744073709551615', 'deliver 0-18446744073709551615'",
            UNLISTED,
            Found::Broken(DocumentRule::TooMany),
        ),
        (
            "'deliver 1-99999', 'frob'",
            UNLISTED,
            Found::Broken(DocumentRule::Element),
        ),
    ] {
        let document = document(alloc, (1, 1, 0, 0, 0), steps, more)?;
        assert_eq!(rt; reading(alloc, document.as_str())?, wanted, "{steps}");
    }
    Ok(())
}

// A document of so many deliveries in one text, and of so many texts behind it.
fn many(alloc: Global, deliveries: u32, texts: u32) -> Result<String, Fail> {
    let mut steps = format!(in alloc; "'deliver 1-{deliveries}'")?;
    for _ in 0..texts {
        steps.push_str(", 'stop 1'")?;
    }
    document(alloc, (1, 1, 0, 0, 0), steps.as_str(), "")
}

#[test]
fn each_text_is_a_step(rt: HostRuntime) -> Result<(), Fail> {
    let alloc = rt.alloc();
    for (texts, wanted) in [
        (1_000, Found::Steps(100_000)),
        (1_001, Found::Broken(DocumentRule::TooMany)),
    ] {
        let document = many(alloc, 99_000, texts)?;
        assert_eq!(rt; reading(alloc, document.as_str())?, wanted);
    }
    Ok(())
}

// A change of so many LFB instances from one on.
fn put_instances(alloc: Global, document: &mut String, first: u32, count: u32) -> Result<(), Fail> {
    document.push_str("[[transaction.change]]\nelement = 1\nbody = \"")?;
    for number in 0..count {
        let instance = u64::from(first) + u64::from(number);
        let select = format!(in alloc; "lfb 00001001 {instance}\\n  DEL\\n    path 5\\n")?;
        document.push_str(select.as_str())?;
    }
    document.push_str("\"\n")?;
    Ok(())
}

// A document of one transaction with scopes and two changes of so many LFB instances each, and a text that is no step.
fn instances(alloc: Global, counts: (u32, u32)) -> Result<String, Fail> {
    let head = "[[transaction]]\nname = \"a\"\nscoped = true\n";
    let mut document = document(alloc, (1, 1, 0, 0, 0), "'frob'", head)?;
    put_instances(alloc, &mut document, 10_000_000, counts.0)?;
    put_instances(alloc, &mut document, 20_000_000, counts.1)?;
    Ok(document)
}

#[test]
fn scopes_are_kept_or_passed(rt: HostRuntime) -> Result<(), Fail> {
    let alloc = rt.alloc();
    for (counts, wanted) in [
        ((2_048, 2_048), Found::Wrong(1)),
        ((2_048, 2_049), Found::Broken(DocumentRule::TooMany)),
    ] {
        let document = instances(alloc, counts)?;
        assert_eq!(rt; reading(alloc, document.as_str())?, wanted);
    }
    Ok(())
}
