//! What a line about the machine asks of an open memory.

ghost use Rattle.std.specs.Prelude.{◌≡◌, ◌≢◌, true, IfNone, IfSome};
ghost use Rattle.gd_base.specs.Histories.Entry.{device_of};
ghost use Rattle.gd_script.specs.Grammar.{InGrammar};
ghost use Rattle.gd_script.specs.Items.{order_event};
ghost use Rattle.gd_top.specs.Run.Items.{next_numbered, order_of};
ghost use Rattle.gd_top.specs.Script.Asked.{IsAsked, IsTextAsked};
ghost use Rattle.gd_top.specs.Script.Kinds.{needs_memory};

use crate::report::lines::push_none_line;
use gd_base::{Core, Device, Door, Event, MOST_ENTRIES, Numbered, Text};
use gd_script::{Item, OrderWord};

/// The event that a line about the machine offers, under its number, or None where the line wants a text. The text is written
/// over what stands in `text`.
pub(crate) fn asked<C: Core>(core: &C, item: Item, text: &mut Text) -> Option<Numbered>
    requires about { needs_memory item ≡ true }
    requires grammar { InGrammar item }
    ensures event { IfSome result (λ e. IsAsked (C.meaning core.now) (C.view core.now) item e) }
    ensures not_start { IfSome result (λ e. e.event ≢ Event.Start) }
    ensures text { IfNone result (IsTextAsked (C.meaning core.now) (C.view core.now) item text.new.bytes) }
{
    match item {
        Item::Event(event) => Some(next_numbered(core, event)),
        Item::OrderEvent { kind, order } => {
            let event = order_event(core, kind, order);
            Some(next_numbered(core, event))
        }
        Item::As { number, event } => Some(Numbered { number, event }),
        Item::Again(device) => asked_again(core, device, text),
        Item::Show(what) => {
            core.show(what, text);
            None
        }
        _ => unreachable!(),
    }
}

/// An event under a device's last number, which gets the reply that was kept of it. None where the device has told nothing: that is
/// written over what stands in `text`.
fn asked_again<C: Core>(core: &C, device: Device, text: &mut Text) -> Option<Numbered>
    requires not_power { device ≢ Device.Power }
    ensures event { IfSome result (λ e. IsAsked (C.meaning core.now) (C.view core.now) (Item.Again device) e) }
    ensures not_start { IfSome result (λ e. e.event ≢ Event.Start) }
    ensures text { IfNone result (IsTextAsked (C.meaning core.now) (C.view core.now) (Item.Again device) text.new.bytes) }
{
    let number = core.last(device);
    if number == 0 {
        text.clear();
        push_none_line(text, device);
        return None;
    }
    Some(Numbered {
        number,
        event: event_of(device),
    })
}

/// The event under its device's next number.
fn next_numbered<C: Core>(core: &C, event: Event) -> Numbered
    ensures { result ≡ next_numbered (C.meaning core.now) event (C.view core.now) }
{
    let last = core.last(event.device());
    let count = core.count();
    prove!(last <= count && count <= MOST_ENTRIES);
    Numbered {
        number: last + 1,
        event,
    }
}

/// The event of an order, by the order's number, or of the open order where it is None.
fn order_event<C: Core>(core: &C, kind: OrderWord, order: Option<u64>) -> Event
    ensures event { result ≡ order_event kind (order_of (C.meaning core.now) order (C.view core.now)) }
    ensures not_start { result ≢ Event.Start }
{
    let order = match order {
        Some(order) => order,
        None => core.open_order(),
    };
    match kind {
        OrderWord::Printed => Event::Printed { order },
        OrderWord::PrintFail => Event::PrintFail { order },
        OrderWord::CoinPaid => Event::CoinPaid { order },
        OrderWord::HopperEmpty => Event::HopperEmpty { order },
    }
}

/// An event of a device. Which one it is doesn't matter to a repeat.
fn event_of(device: Device) -> Event
    requires { device ≢ Device.Power }
    ensures device { device_of result ≡ device }
    ensures not_start { result ≢ Event.Start }
{
    match device {
        Device::Bill => Event::BillJam,
        Device::Coin => Event::CoinJam,
        Device::Reader => Event::VoucherIn { id: 0, value: 0 },
        Device::Printer => Event::PaperOut,
        Device::Hopper => Event::CoinPaid { order: 0 },
        Device::Doors => Event::DoorOpen { door: Door::Main },
        Device::Player => Event::Take,
        Device::Attendant => Event::HandpayDone,
        Device::Power => unreachable!(),
    }
}
