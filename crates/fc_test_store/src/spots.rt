// Spots lead to the components of the largest library, or to the first cause against that.
use crate::words::spot;
use fc_base::OpFault;
use fc_library::library_from_slice;
use fc_store::{Purpose, resolve};
use std::alloc::Global;
use std::test::Fail;

// A class of 1,000 components with 4,096 instances. The first component can't be written, the second can't be read, and all others can be both.
fn document(alloc: Global) -> Result<String, Fail> {
    let mut text = String::from_str(
        alloc,
        "[[class]]\nid = 100\nname = 'class'\nevent_base = 60000\n",
    )?;
    for id in 1..=1_000u32 {
        let access = if id < 3 { id } else { 3 };
        let component = format!(in alloc;
            "[[class.component]]\nid = {id}\nname = 'component'\ntype = 'bool'\naccess = {access}\n"
        )?;
        text.push_str(component.as_str())?;
    }
    for id in 1..=4_096u32 {
        let instance = format!(in alloc; "[[instance]]\nclass = 100\nid = {id}\n")?;
        text.push_str(instance.as_str())?;
    }
    Ok(text)
}

fn purpose_of(word: &str) -> Purpose {
    match word {
        "read" => Purpose::Read,
        "write" => Purpose::Write,
        _ => Purpose::Look,
    }
}

// The places of an instance and of a component, or the code.
fn told(alloc: Global, found: &Result<(usize, usize), OpFault>) -> Result<String, Fail> {
    match found {
        Ok((instance, component)) => Ok(format!(in alloc; "{instance} {component}")?),
        Err(OpFault::Refused(code)) => Ok(format!(in alloc; "code {}", code.0)?),
        Err(OpFault::Memory) => Err(Fail::from("memory")),
    }
}

// What is meant, a spot, and the places to which it leads, or the code of the first cause against it.
const ROWS: &str = "\
write 101/5000 = code 5
write 100/5000 = code 7
write 100/1 = code 8
write 100/1/60000 = code 20
write 100/1/1001 = code 9
write 100/1/1 = code 12
read 100/1/2 = code 21
look 100/0/1 = code 7
look 100/1/2/7 = 0 1
look 100/1/1=00 = code 8
read 100/1/1/7 = 0 0
write 100/2/2/7 = 1 1
read 100/4096/1000/7 = 4095 999
write 100/4096/1000/7 = 4095 999";

#[test]
fn a_spot_leads_to_the_places_of_its_component(rt: HostRuntime) -> Result<(), Fail> {
    let alloc = rt.alloc();
    let document = document(alloc)?;
    let read = library_from_slice(alloc, document.as_bytes());
    let (library, instances) = read.ok().ok_or("a library")?;
    for row in ROWS.lines() {
        let (asked, wanted) = row.split_once(" = ").ok_or("a row")?;
        let (purpose, word) = asked.split_once(" ").ok_or("a spot")?;
        let spot = spot(alloc, word)?;
        let found = resolve(purpose_of(purpose), &library, &instances, &spot);
        assert_eq!(rt; told(alloc, &found)?.as_str(), wanted, "{row}");
    }
    Ok(())
}
