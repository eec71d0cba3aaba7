// The text of what a run gave.
ghost use Rattle.std.specs.Prelude.{◌≡◌, ◌++◌, [], codes, flat_map, IfOk, OnOk, string_bytes};
ghost use Rattle.json.specs.Print.{print};
ghost use Rattle.serde_json.specs.Data.{object};
ghost use Rattle.serde_json.specs.Written.{compact_text};
ghost use Rattle.run_value.specs.Trace.{event_of, exports_of, ending_of, run_held};
ghost use Rattle.json_write.specs.Tokens.{data_tokens, Appends};
ghost use Rattle.js_meaning.specs.Trace.{ended};
ghost use Rattle.run_text.specs.Text.{event_data, ending_data, ending_members, line_of, text_of};

use crate::event::write_event;
use crate::exports::write_exports_field;
use crate::field::write_text_field;
use json::Writer;
use run_value::{Ending, Event, ShownExports, Trace};
use std::alloc::{AllocError, Global};

// ---- the ending

fn write_ended(out: &mut Writer, exports: &ShownExports) -> Result<(), AllocError>
    ensures { Appends result out.old out.new (data_tokens (ending_data (ended (exports_of exports.now)))) }
{
    out.begin_object()?;
    write_text_field(out, "ending", "ended")?;
    write_exports_field(out, exports)?;
    out.end_object()?;
    Ok(())
}

// An ending with no exports.
fn write_stopped(out: &mut Writer, word: &str) -> Result<(), AllocError>
    ensures { Appends result out.old out.new (data_tokens (object (ending_members word.now))) }
{
    out.begin_object()?;
    write_text_field(out, "ending", word)?;
    out.end_object()?;
    Ok(())
}

fn write_ending(out: &mut Writer, ending: &Ending) -> Result<(), AllocError>
    ensures { Appends result out.old out.new (data_tokens (ending_data (ending_of ending.now))) }
{
    match ending {
        Ending::Ended(exports) => write_ended(out, exports),
        Ending::HostStopped => write_stopped(out, "host stopped"),
        Ending::Out => write_stopped(out, "out"),
        Ending::Uncovered => write_stopped(out, "uncovered"),
    }
}

// ---- lines

fn into_text(out: Writer) -> String
    requires { out.before ≡ [] }
    ensures { string_bytes result ≡ print out.tokens }
{
    String::from_utf8(out.into_inner()).unwrap()
}

fn event_text(alloc: Global, event: &Event) -> Result<String, AllocError>
    ensures { IfOk result (λ s. string_bytes s ≡ compact_text (event_data (event_of event.now))) }
{
    let mut out = Writer::new(Vec::new(alloc));
    write_event(&mut out, event)?;
    Ok(into_text(out))
}

fn ending_text(alloc: Global, ending: &Ending) -> Result<String, AllocError>
    ensures { IfOk result (λ s. string_bytes s ≡ compact_text (ending_data (ending_of ending.now))) }
{
    let mut out = Writer::new(Vec::new(alloc));
    write_ending(&mut out, ending)?;
    Ok(into_text(out))
}

fn add_line(text: &mut String, line: &str) -> Result<(), AllocError>
    ensures { OnOk result (string_bytes text.new ≡ string_bytes text.old ++ (line.now ++ codes "\n")) }
{
    text.push_str(line)?;
    text.push_str("\n")?;
    Ok(())
}

fn add_event(alloc: Global, text: &mut String, event: &Event) -> Result<(), AllocError>
    ensures { OnOk result (string_bytes text.new ≡ string_bytes text.old ++ line_of (event_data (event_of event.now))) }
{
    let line = event_text(alloc, event)?;
    add_line(text, line.as_str())
}

fn add_events(alloc: Global, text: &mut String, events: &[Event]) -> Result<(), AllocError>
    ensures { OnOk result (string_bytes text.new ≡ string_bytes text.old ++ flat_map (λ e. line_of (event_data (event_of e))) events.now) }
{
    for event in events {
        add_event(alloc, text, event)?;
    }
    Ok(())
}

fn add_ending(alloc: Global, text: &mut String, ending: &Ending) -> Result<(), AllocError>
    ensures { OnOk result (string_bytes text.new ≡ string_bytes text.old ++ line_of (ending_data (ending_of ending.now))) }
{
    let line = ending_text(alloc, ending)?;
    add_line(text, line.as_str())
}

/// The text of what a run gave: a line of JSON for each event, and one for the ending.
pub fn write_trace(alloc: Global, trace: &Trace) -> Result<String, AllocError>
    ensures text { IfOk result (λ s. string_bytes s ≡ text_of (run_held trace.now)) }
{
    let mut text = String::new(alloc);
    add_events(alloc, &mut text, trace.events.all.as_slice())?;
    add_ending(alloc, &mut text, &trace.ending)?;
    Ok(text)
}
