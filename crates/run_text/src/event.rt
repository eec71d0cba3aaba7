// Events: each has its word and the exports of that moment, and the objects' keys stand in byte order.
ghost use Rattle.std.specs.Prelude.{◌∷◌, codes};
ghost use Rattle.json.specs.Token as token;
ghost use Rattle.serde_json.specs.Data.{put};
ghost use Rattle.serde_json.specs.Data as json;
ghost use Rattle.js_meaning.specs.Trace.{load, get, set, construct, call, write, finished, failed};
ghost use Rattle.run_value.specs.ShownView.{shown_of};
ghost use Rattle.run_value.specs.Trace.{exports_of, all_of, act_of, event_of};
ghost use Rattle.json_write.specs.Tokens.{data_tokens, Appends};
ghost use Rattle.run_text.specs.Text.{shown_data, exports_data, event_members, act_members, event_data};

use crate::exports::write_exports_field;
use crate::field::write_text_field;
use crate::shown::{write_all_field, write_shown_field};
use json::Writer;
use run_value::{Act, Event, Shown, ShownExports};
use std::alloc::AllocError;

// What every event has.
fn write_common(out: &mut Writer, word: &str, exports: &ShownExports) -> Result<(), AllocError>
    ensures { Appends result out.old out.new (token.key (codes "event") ∷ token.string word.now ∷ token.key (codes "exports") ∷ data_tokens (exports_data (exports_of exports.now))) }
{
    write_text_field(out, "event", word)?;
    write_exports_field(out, exports)?;
    Ok(())
}

fn write_load(out: &mut Writer, source: &str, exports: &ShownExports) -> Result<(), AllocError>
    ensures { Appends result out.old out.new (data_tokens (json.object (act_members (load source.now) (exports_of exports.now)))) }
{
    out.begin_object()?;
    write_common(out, "load", exports)?;
    write_text_field(out, "source", source)?;
    out.end_object()?;
    Ok(())
}

fn write_get(
    out: &mut Writer,
    object: &Shown,
    key: &Shown,
    exports: &ShownExports,
) -> Result<(), AllocError>
    ensures { Appends result out.old out.new (data_tokens (json.object (act_members (get (shown_of object.now) (shown_of key.now)) (exports_of exports.now)))) }
{
    out.begin_object()?;
    write_common(out, "get", exports)?;
    write_shown_field(out, "key", key)?;
    write_shown_field(out, "object", object)?;
    out.end_object()?;
    Ok(())
}

fn write_set(
    out: &mut Writer,
    object: &Shown,
    key: &Shown,
    value: &Shown,
    exports: &ShownExports,
) -> Result<(), AllocError>
    ensures { Appends result out.old out.new (data_tokens (json.object (act_members (set (shown_of object.now) (shown_of key.now) (shown_of value.now)) (exports_of exports.now)))) }
{
    out.begin_object()?;
    write_common(out, "set", exports)?;
    write_shown_field(out, "key", key)?;
    write_shown_field(out, "object", object)?;
    write_shown_field(out, "value", value)?;
    out.end_object()?;
    Ok(())
}

// `in` or `instanceof`.
fn write_sides(
    out: &mut Writer,
    word: &str,
    left: &Shown,
    right: &Shown,
    exports: &ShownExports,
) -> Result<(), AllocError>
    ensures { Appends result out.old out.new (data_tokens (json.object (put (codes "left") (shown_data (shown_of left.now)) (put (codes "right") (shown_data (shown_of right.now)) (event_members word.now (exports_of exports.now)))))) }
{
    out.begin_object()?;
    write_common(out, word, exports)?;
    write_shown_field(out, "left", left)?;
    write_shown_field(out, "right", right)?;
    out.end_object()?;
    Ok(())
}

fn write_construct(
    out: &mut Writer,
    callee: &Shown,
    arguments: &[Shown],
    exports: &ShownExports,
) -> Result<(), AllocError>
    ensures { Appends result out.old out.new (data_tokens (json.object (act_members (construct (shown_of callee.now) (all_of arguments.now)) (exports_of exports.now)))) }
{
    out.begin_object()?;
    write_all_field(out, "args", arguments)?;
    write_shown_field(out, "callee", callee)?;
    write_common(out, "new", exports)?;
    out.end_object()?;
    Ok(())
}

fn write_call(
    out: &mut Writer,
    callee: &Shown,
    this: &Shown,
    arguments: &[Shown],
    exports: &ShownExports,
) -> Result<(), AllocError>
    ensures { Appends result out.old out.new (data_tokens (json.object (act_members (call (shown_of callee.now) (shown_of this.now) (all_of arguments.now)) (exports_of exports.now)))) }
{
    out.begin_object()?;
    write_all_field(out, "args", arguments)?;
    write_shown_field(out, "callee", callee)?;
    write_common(out, "call", exports)?;
    write_shown_field(out, "this", this)?;
    out.end_object()?;
    Ok(())
}

fn write_global(
    out: &mut Writer,
    name: &str,
    value: &Shown,
    exports: &ShownExports,
) -> Result<(), AllocError>
    ensures { Appends result out.old out.new (data_tokens (json.object (act_members (write name.now (shown_of value.now)) (exports_of exports.now)))) }
{
    out.begin_object()?;
    write_common(out, "write", exports)?;
    write_text_field(out, "name", name)?;
    write_shown_field(out, "value", value)?;
    out.end_object()?;
    Ok(())
}

// How a call ended that the host made.
fn write_outcome(
    out: &mut Writer,
    word: &str,
    value: &Shown,
    exports: &ShownExports,
) -> Result<(), AllocError>
    ensures { Appends result out.old out.new (data_tokens (json.object (put (codes "value") (shown_data (shown_of value.now)) (event_members word.now (exports_of exports.now))))) }
{
    out.begin_object()?;
    write_common(out, word, exports)?;
    write_shown_field(out, "value", value)?;
    out.end_object()?;
    Ok(())
}

fn write_finished(out: &mut Writer, exports: &ShownExports) -> Result<(), AllocError>
    ensures { Appends result out.old out.new (data_tokens (json.object (act_members finished (exports_of exports.now)))) }
{
    out.begin_object()?;
    write_common(out, "done", exports)?;
    out.end_object()?;
    Ok(())
}

fn write_failed(out: &mut Writer, thrown: &Shown, exports: &ShownExports) -> Result<(), AllocError>
    ensures { Appends result out.old out.new (data_tokens (json.object (act_members (failed (shown_of thrown.now)) (exports_of exports.now)))) }
{
    out.begin_object()?;
    write_common(out, "done", exports)?;
    write_shown_field(out, "thrown", thrown)?;
    out.end_object()?;
    Ok(())
}

// An event, by what happened.
fn write_act(out: &mut Writer, act: &Act, exports: &ShownExports) -> Result<(), AllocError>
    ensures { Appends result out.old out.new (data_tokens (json.object (act_members (act_of act.now) (exports_of exports.now)))) }
{
    match act {
        Act::Load { source } => write_load(out, source.as_str(), exports),
        Act::Get { object, key } => write_get(out, object, key, exports),
        Act::Set { object, key, value } => write_set(out, object, key, value, exports),
        Act::In { left, right } => write_sides(out, "in", left, right, exports),
        Act::Instanceof { left, right } => write_sides(out, "instanceof", left, right, exports),
        Act::Construct { callee, arguments } => {
            write_construct(out, callee, arguments.as_slice(), exports)
        }
        Act::Call {
            callee,
            this,
            arguments,
        } => write_call(out, callee, this, arguments.as_slice(), exports),
        Act::Write { name, value } => write_global(out, name.as_str(), value, exports),
        Act::Returned { value } => write_outcome(out, "return", value, exports),
        Act::Threw { value } => write_outcome(out, "throw", value, exports),
        Act::Finished => write_finished(out, exports),
        Act::Failed { thrown } => write_failed(out, thrown, exports),
    }
}

pub(crate) fn write_event(out: &mut Writer, event: &Event) -> Result<(), AllocError>
    ensures { Appends result out.old out.new (data_tokens (event_data (event_of event.now))) }
{
    write_act(out, &event.act, &event.exports)
}
