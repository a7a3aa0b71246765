// Documents that are read, whatever their spelling and size.
use crate::libraries::line;
use std::alloc::Global;
use std::test::Fail;

#[test]
fn documents_of_other_spellings_are_read(rt: HostRuntime) -> Result<(), Fail> {
    let alloc = rt.alloc();
    for document in [
        "",
        "# no classes\n",
        "class = []\ninstance = []",
        "class = [{ id = 5, name = '' }]",
        "[[class]]\nid = 4_294_967_295\nname = \"\"\"c\"\"\"\nevent_base = 0b1",
        "[[class]]\nid = 5\nname = 'c'\ncomponent = [{ id = 1, name = 'a', type = 'array', entries = 1, entry.type = 'u8' }]",
        "[[class]]\nid = 5\nname = 'c'\ncomponent = [{ id = 1, name = 'a', type = 'array', entries = 1, entry = { type = 'array', entries = 1, entry = { type = 'array', entries = 1, entry = { type = 'array', entries = 1, entry = { type = 'array', entries = 1, entry = { type = 'array', entries = 1, entry = { type = 'array', entries = 1, entry = { type = 'bool' } } } } } } } }]",
        "[[class]]\nid = 0\nname = 'c'\ncomponent = [{ id = 1, name = 'a', type = 'struct', fields = [] }]\n[[instance]]\nclass = 0\nid = 0",
    ] {
        let told = line(alloc, document.as_bytes())?;
        assert_eq!(rt; told.as_slice(), "accepted\n".as_bytes());
    }
    for bytes in [
        b"class = [] # \xff",
        b"\x80\x80\x80\x80\x80\x80\x80\x80\x80\x80\x80\x80\x80\x80",
    ] {
        let told = line(alloc, bytes)?;
        assert_eq!(rt; told.as_slice(), "refused library nottoml\n".as_bytes());
    }
    Ok(())
}

// A document of so many classes, each with a name of 4,096 bytes.
fn document_of(alloc: Global, classes: u32) -> Result<String, Fail> {
    let name = "n".repeat(alloc, 4096)?;
    let mut document = String::new(alloc);
    for class in 0..classes {
        let id = 4096 + u64::from(class);
        document.push_str(format!(in alloc; "[[class]]\nid = {id}\nname = '{name}'\n")?.as_str())?;
    }
    Ok(document)
}

#[test]
fn large_documents_are_read(rt: HostRuntime) -> Result<(), Fail> {
    let alloc = rt.alloc();
    for (classes, wanted) in [
        (256, "accepted\n"),
        (257, "refused library check toomany\n"),
    ] {
        let document = document_of(alloc, classes)?;
        assert!(rt; document.len() >= 1_048_576);
        let told = line(alloc, document.as_bytes())?;
        assert_eq!(rt; told.as_slice(), wanted.as_bytes());
    }
    Ok(())
}
