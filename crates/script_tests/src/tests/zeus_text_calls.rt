use std::test::Fail;
use zeus_base::{NodeId, NodeSet, ObjId, SlotId, Step, Text, Value};
use zeus_model::Name;
use zeus_text::{
    append, write_counted, write_decimal, write_line_end, write_object, write_step, write_value,
    write_word,
};

#[test]
fn words_follow_each_other(rt: HostRuntime) -> Result<(), Fail> {
    let name = Name::new(b"phone_40").expect(&rt, "a name");
    let names = [name];
    let text = Text::new(b"it's").expect(&rt, "a text");
    let mut out = Vec::new(rt.alloc());
    append(&mut out, b"put")?;
    write_object(&mut out, names.as_slice(), ObjId(0))?;
    write_value(&mut out, &Value::Text(text))?;
    write_object(&mut out, names.as_slice(), ObjId(1))?;
    write_value(&mut out, &Value::Num(u64::MAX))?;
    write_word(&mut out, b"end")?;
    write_counted(&mut out, b";", 0)?;
    write_decimal(&mut out, 7)?;
    write_line_end(&mut out)?;
    let wanted = b"put phone_40 'it's  18446744073709551615 end; 07\n";
    assert_eq!(rt; out.as_slice(), wanted.as_slice());
    Ok(())
}

#[test]
fn steps_stand_as_in_scripts(rt: HostRuntime) -> Result<(), Fail> {
    let mut out = Vec::new(rt.alloc());
    write_step(&mut out, &Step::Try(NodeId(7), SlotId(1)))?;
    write_line_end(&mut out)?;
    write_step(&mut out, &Step::View(NodeSet { bits: 0b1000_0010 }))?;
    write_line_end(&mut out)?;
    write_step(&mut out, &Step::View(NodeSet::empty()))?;
    write_line_end(&mut out)?;
    let wanted = b"try 7 1\nview 1 7\nview\n";
    assert_eq!(rt; out.as_slice(), wanted.as_slice());
    Ok(())
}
