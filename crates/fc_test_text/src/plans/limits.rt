// Documents at their limits, and past them.
use fc_documents::plan_from_slice;
use fc_library::{DocumentRule, LibFault};
use std::alloc::Global;
use std::test::Fail;

// Whether a document means a plan, and else which rule it breaks.
fn broken(alloc: Global, document: &str) -> Result<Option<DocumentRule>, Fail> {
    match plan_from_slice(alloc, document.as_bytes()) {
        Ok(_) => Ok(None),
        Err(LibFault::Rule(rule)) => Ok(Some(rule)),
        Err(_) => Err(Fail::from("another fault")),
    }
}

// How many elements there are, and how many transactions; how many participants each one has, and these how many changes.
type Counts = (u32, u32, u32, u32);

fn put_change(alloc: Global, document: &mut String, element: u32) -> Result<(), Fail> {
    let head = format!(in alloc; "[[transaction.change]]\nelement = {element}\n")?;
    document.push_str(head.as_str())?;
    document.push_str("body = \"lfb 00001001 00000001\\n  DEL\\n    path 5\\n\"\n")?;
    Ok(())
}

fn put_transaction(
    alloc: Global,
    document: &mut String,
    number: u32,
    participants: u32,
    changes: u32,
) -> Result<(), Fail> {
    let head = format!(in alloc; "[[transaction]]\nname = \"t{number}\"\n")?;
    document.push_str(head.as_str())?;
    for participant in 0..participants {
        for _ in 0..changes {
            put_change(alloc, document, participant % 1_000 + 1)?;
        }
    }
    Ok(())
}

// A document of so much, and more lines behind it.
fn document(alloc: Global, counts: Counts, more: &str) -> Result<String, Fail> {
    let mut document = String::new(alloc);
    for element in 0..counts.0 {
        let id = element % 1_000 + 1;
        let table = format!(in alloc; "[[element]]\nid = {id}\n")?;
        document.push_str(table.as_str())?;
    }
    for number in 0..counts.1 {
        put_transaction(alloc, &mut document, number, counts.2, counts.3)?;
    }
    document.push_str(more)?;
    Ok(document)
}

const NO_CHANGE: &str = "[[transaction]]\nname = \"z\"\nchange = []\n";

const UNNAMED: &str = "[[transaction]]\nname = \"\"\nchange = []\n";

const UNLISTED: &str = "[[transaction]]\nname = \"\"\nchange = [{ element = 999, body = \"\" }]\n";

#[test]
fn limits_are_kept_or_passed(rt: HostRuntime) -> Result<(), Fail> {
    let alloc = rt.alloc();
    for (counts, more, rule) in [
        ((255, 0, 0, 0), "", None),
        ((256, 0, 0, 0), "", Some(DocumentRule::TooMany)),
        ((1, 1_024, 1, 1), "", None),
        ((1, 1_025, 1, 1), "", Some(DocumentRule::TooMany)),
        ((1, 1, 1, 256), "", None),
        ((1, 1, 1, 257), "", Some(DocumentRule::TooMany)),
        ((64, 1, 64, 1), "", None),
        ((65, 1, 65, 1), "", Some(DocumentRule::TooMany)),
        ((1, 1, 1, 257), UNLISTED, Some(DocumentRule::TooMany)),
        ((65, 1, 65, 1), UNLISTED, Some(DocumentRule::Element)),
        ((65, 1, 65, 1), UNNAMED, Some(DocumentRule::Name)),
        ((65, 1, 65, 1), NO_CHANGE, Some(DocumentRule::Body)),
    ] {
        let document = document(alloc, counts, more)?;
        assert_eq!(rt; broken(alloc, document.as_str())?, rule);
    }
    Ok(())
}

// A change of so many LFB instances from one on.
fn put_instances(alloc: Global, document: &mut String, first: u32, count: u32) -> Result<(), Fail> {
    document.push_str("[[transaction.change]]\nelement = 1\nbody = \"")?;
    for number in 0..count {
        let instance = u64::from(first) + u64::from(number);
        let select = format!(in alloc; "lfb 00001001 {instance}\\n  DEL\\n    path 5\\n")?;
        document.push_str(select.as_str())?;
    }
    document.push_str("\"\n")?;
    Ok(())
}

// A document of one transaction with two changes of so many LFB instances each.
fn instances(alloc: Global, scoped: bool, counts: (u32, u32)) -> Result<String, Fail> {
    let mut document = format!(in alloc;
        "[[element]]\nid = 1\n[[transaction]]\nname = \"a\"\nscoped = {scoped}\n"
    )?;
    put_instances(alloc, &mut document, 10_000_000, counts.0)?;
    put_instances(alloc, &mut document, 20_000_000, counts.1)?;
    Ok(document)
}

#[test]
fn scopes_are_kept_or_passed(rt: HostRuntime) -> Result<(), Fail> {
    let alloc = rt.alloc();
    for (scoped, counts, rule) in [
        (true, (2_048, 2_048), None),
        (true, (2_048, 2_049), Some(DocumentRule::TooMany)),
        (false, (2_048, 2_049), None),
    ] {
        let document = instances(alloc, scoped, counts)?;
        assert_eq!(rt; broken(alloc, document.as_str())?, rule);
    }
    Ok(())
}
