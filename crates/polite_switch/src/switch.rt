//! The softswitch of a thread.

ghost use Rattle.std.specs.Prelude.{◌≡◌, ◌≤◌, ◌<◌, ◌+◌, ◌^◌, ◌↔◌, is_some, length, map, option_map, true, unwrap_or, IfOk, IfSome, IsTrue};
ghost use Rattle.std.specs.Option.{ForSome};
ghost use Rattle.polite_switch.specs.Course.{back_of};
ghost use Rattle.polite_switch.specs.Device.{AllAligned, AllNamed, edges_for};
ghost use Rattle.polite_switch.specs.Kept.{CourseFits, FitsAction, Makes, RowHolds, WellKept, no_view};
ghost use Rattle.polite_switch.specs.Ready.{WellQueued};
ghost use Rattle.polite_switch.specs.Table.{acts, call_of, calls, dispatched, done, fault_of, fresh_switch, has_none, is_bad_pin, is_pin, is_stray, next_edge, row_of, running_of, sent_key, served_more, taken, taken_ready};

use crate::action::{Action, Msg, SwitchView};
use crate::course::{Call, Course, Due, Entry, Hand, Running};
use crate::device::{Device, InEdge};
use crate::ready::Ready;
use crate::row::{Acted, Row};
use std::alloc::{AllocError, Global};
use std::marker::Model;
use tn_base::event::Trap;

/// The softswitch of a thread: its devices, the in-edges of each local key, which devices are ready, and how far it has
/// come. No call takes memory but `of` and `copy`.
#[derive(Drop)]
pub struct Switch {
    devices: Vec<Device>,
    in_edges: Vec<Vec<InEdge>>,
    ready: Ready,
    course: Course,
}

impl Model for Switch {
    ghost use Rattle.std.specs.Prelude.{map};
    ghost use Rattle.polite_switch.specs.Kept.{WellKept};
    ghost use Rattle.polite_switch.specs.SwitchModel.{SwitchModel};

    ghost Value = { SwitchModel };

    ghost view = { λ s. record { devices = s.devices.items; in_edges = map (λ v. v.items) s.in_edges.items; ready = s.ready; course = s.course } };

    ghost invariant = { λ s. WellKept (record { devices = s.devices.items; in_edges = map (λ v. v.items) s.in_edges.items; ready = s.ready; course = s.course }) };
}

impl Switch {
    /// The softswitch of these devices at its start. The k-th list holds the in-edges of the local key k.
    pub fn of(
        alloc: Global,
        devices: Vec<Device>,
        in_edges: Vec<Vec<InEdge>>,
    ) -> Result<Switch, AllocError>
        requires few { length devices.items ≤ 64 }
        requires aligned { AllAligned devices.items }
        requires named { AllNamed (length devices.items) (map (λ v. v.items) in_edges.items) }
        ensures { IfOk result (λ s. s ≡ fresh_switch devices.items (map (λ v. v.items) in_edges.items)) }
    {
        let count = devices.len() as u32;
        let ready = Ready::of(alloc, count)?;
        Ok(Switch {
            devices,
            in_edges,
            ready,
            course: Course {
                call: None,
                entered: false,
                due: Due::Nothing,
                hand: None,
                begun: 0,
                stepped: count,
                finished: None,
            },
        })
    }

    /// One dispatch: takes what a handler returned and the answer to an idle, and does the first row of the table that
    /// holds. A dispatch that traps changes nothing.
    pub fn next(&mut self, view: SwitchView) -> Action
        ensures row { record { switch = self.new; action = result } ≡ dispatched view self.old }
        ensures fits { FitsAction result }
    {
        if let Some(why) = self.fault(&view) {
            return Action::Trap(why);
        }
        self.take(&view);
        let row = self.row(&view);
        let acted = self.act(row, &view);
        self.course = acted.course;
        acted.action
    }

    /// The handler that was last begun.
    pub fn running(&self) -> Option<Running>
        ensures { result ≡ option_map running_of self.now.course.call }
    {
        match self.course.call {
            Some(call) => Some(Running {
                entry: call.entry.number(),
                device: call.device,
                pin: call.pin,
                in_edge: call.in_edge,
            }),
            None => None,
        }
    }

    /// The devices of the thread, in order.
    pub fn devices(&self) -> &[Device]
        ensures { result.now ≡ self.now.devices }
    {
        &self.devices
    }

    /// Whether the last dispatch called a handler, and what it returned was not taken yet.
    pub fn has_entered(&self) -> bool
        ensures { result ≡ self.now.course.entered }
    {
        self.course.entered
    }

    /// Whether a dispatch that does not trap sends the message of the send handler that has returned.
    pub fn sends_next(&self, view: &SwitchView) -> bool
        ensures { result ≡ is_pin (taken view.now self.now).course.due }
    {
        match self.course.taken(view).due {
            Due::Pin => true,
            Due::Nothing | Due::Host => false,
        }
    }

    /// Tells what holds of every softswitch.
    pub fn kept(&self)
        ensures fits { WellKept self.now }
        ensures queued { WellQueued self.now.ready }
    {
        self.ready.kept();
    }

    /// How many devices there are.
    fn count(&self) -> u32
        ensures value { result ≡ length self.now.devices }
        ensures few { result ≤ 64 }
    {
        self.devices.len() as u32
    }

    /// Why a dispatch traps.
    fn fault(&self, view: &SwitchView) -> Option<Trap>
        ensures { result ≡ fault_of view.now self.now }
    {
        if self.is_bad_pin(view) {
            return Some(Trap::BadPin);
        }
        if self.is_stray(view) {
            return Some(Trap::BadLocalKey);
        }
        None
    }

    /// Whether the dispatch is to take a letter whose key has no in-edge.
    fn is_stray(&self, view: &SwitchView) -> bool
        ensures { result ≡ is_stray view.now (taken view.now self.now) }
    {
        let course = self.course.taken(view);
        course.is_calm(self.count()) && view.can_recv && self.is_unknown(view.key)
    }

    /// Whether the number that a handler returned is none that it may return.
    fn is_bad_pin(&self, view: &SwitchView) -> bool
        ensures { result ≡ is_bad_pin (back_of self.now.course) self.now.devices view.now }
    {
        let Some(call) = self.course.back() else {
            return false;
        };
        let device = &self.devices[call.device as usize];
        let most = match call.entry {
            Entry::Init | Entry::Send | Entry::Recv | Entry::Step => device.pins(),
            Entry::Finish => 1,
        };
        u64::from(view.a0) > most
    }

    /// Whether a local key has no in-edge.
    fn is_unknown(&self, key: Option<u16>) -> bool
        ensures { result ≡ has_none (edges_for self.now.in_edges key) }
    {
        let Some(key) = key else {
            return true;
        };
        match self.in_edges.get(key as usize) {
            Some(edges) => edges.is_empty(),
            None => true,
        }
    }

    /// Takes what a handler returned and the answer to an idle.
    fn take(&mut self, view: &SwitchView)
        ensures { self.new ≡ taken view.now self.old }
    {
        let back = self.course.back();
        take_ready(&mut self.ready, back, view);
        self.course = self.course.taken(view);
    }

    /// The first row of the table that holds.
    fn row(&self, view: &SwitchView) -> Row
        ensures row { result ≡ row_of view.now self.now }
        ensures holds { RowHolds result view.now self.now }
    {
        match self.course.due {
            Due::Pin => return Row::KeySend,
            Due::Host if view.can_send => return Row::HostSend,
            Due::Host => return Row::HostWait,
            Due::Nothing => {}
        }
        if self.course.begun < self.count() {
            return Row::Init;
        }
        if self.next_edge().is_some() {
            return Row::Recv;
        }
        if self.course.hand.is_some() {
            return Row::Free;
        }
        if self.course.stepped < self.count() {
            return Row::Step;
        }
        if let Some(n) = self.course.finished {
            return if n < self.count() {
                Row::Finish
            } else {
                Row::Kill
            };
        }
        if view.can_recv {
            return Row::Take;
        }
        if !self.ready.any() {
            return Row::Idle;
        }
        if view.can_send { Row::Send } else { Row::Wait }
    }

    /// What a row does.
    fn act(&self, row: Row, view: &SwitchView) -> Acted
        requires { RowHolds row view.now self.now }
        ensures { Makes row view.now self.now result }
    {
        match row {
            Row::KeySend => self.send_key(),
            Row::HostSend => self.send_host(),
            Row::HostWait => self.ask(Action::Wait(1)),
            Row::Init => self.init(),
            Row::Recv => self.receive(),
            Row::Free => self.free(),
            Row::Step => self.step(),
            Row::Finish => self.finish(),
            Row::Kill => self.ask(Action::Kill),
            Row::Take => self.take_letter(view),
            Row::Send => self.send(),
            Row::Wait => self.ask(Action::Wait(3)),
            Row::Idle => self.ask(Action::Idle(!self.ready.any_active())),
        }
    }

    /// The message of the send handler that has returned goes out by the key of its pin.
    fn send_key(&self) -> Acted
        ensures made { result ≡ acts (Action.KeySend (sent_key self.now.devices self.now.course.call)) (record self.now.course { due = Due.Nothing }) }
        ensures course { CourseFits (length self.now.devices) result.course }
    {
        let key = match self.course.call {
            Some(call) => self.devices[call.device as usize].key(call.pin),
            None => None,
        };
        Acted {
            action: Action::KeySend(key),
            course: Course {
                due: Due::Nothing,
                ..self.course
            },
        }
    }

    /// The message of the finish handler goes to the host.
    fn send_host(&self) -> Acted
        ensures made { result ≡ acts Action.HostSend (record self.now.course { due = Due.Nothing }) }
        ensures course { CourseFits (length self.now.devices) result.course }
    {
        Acted {
            action: Action::HostSend,
            course: Course {
                due: Due::Nothing,
                ..self.course
            },
        }
    }

    /// The thread is asked for this, and no more.
    fn ask(&self, action: Action) -> Acted
        ensures made { result ≡ acts action self.now.course }
        ensures course { CourseFits (length self.now.devices) result.course }
    {
        Acted {
            action,
            course: self.course,
        }
    }

    /// A handler is called.
    fn call(&self, call: Call, message: Msg, value: u32, now: Course) -> Acted
        requires device { call.device < length self.now.devices }
        requires now { CourseFits (length self.now.devices) now }
        ensures made { result ≡ calls call message value self.now now }
        ensures course { CourseFits (length self.now.devices) result.course }
        ensures action { FitsAction result.action }
    {
        let device = &self.devices[call.device as usize];
        Acted {
            action: Action::Handler {
                entry: device.entry(call.entry),
                state: device.state,
                message,
                value,
                vertex: device.vertex,
                ready: self.ready.ready(call.device),
            },
            course: Course {
                call: Some(call),
                entered: true,
                ..now
            },
        }
    }

    /// The next device is initialised.
    fn init(&self) -> Acted
        requires { self.now.course.begun < length self.now.devices }
        ensures { Makes Row.Init no_view self.now result }
    {
        let mut now = self.course;
        now.begun += 1;
        self.call(call_of(Entry::Init, self.course.begun), Msg::None, 0, now)
    }

    /// The next device is stepped.
    fn step(&self) -> Acted
        requires { self.now.course.stepped < length self.now.devices }
        ensures { Makes Row.Step no_view self.now result }
    {
        let mut now = self.course;
        now.stepped += 1;
        self.call(call_of(Entry::Step, self.course.stepped), Msg::None, 0, now)
    }

    /// The next device is finished.
    fn finish(&self) -> Acted
        requires { unwrap_or self.now.course.finished 0 < length self.now.devices }
        ensures { Makes Row.Finish no_view self.now result }
    {
        let n = self.course.finished.unwrap_or(0);
        let mut now = self.course;
        now.finished = Some(n + 1);
        self.call(call_of(Entry::Finish, n), Msg::SendSlot, 0, now)
    }

    /// The first ready device sends by the pin that it is ready for.
    fn send(&self) -> Acted
        requires { 0 < length self.now.ready.queue }
        ensures { Makes Row.Send no_view self.now result }
    {
        let device = self.ready.next();
        let call = Call {
            entry: Entry::Send,
            device,
            pin: self.ready.ready(device) - 1,
            in_edge: 0,
        };
        self.call(call, Msg::SendSlot, 0, self.course)
    }

    /// The device of the next in-edge gets the letter in hand.
    fn receive(&self) -> Acted
        requires { is_some (next_edge self.now) ≡ true }
        ensures { Makes Row.Recv no_view self.now result }
    {
        let edge = self.next_edge().unwrap();
        let mut now = self.course;
        now.hand = served_more(self.course.hand);
        let call = Call {
            entry: Entry::Recv,
            device: edge.device,
            pin: 0,
            in_edge: edge.edge,
        };
        self.call(call, Msg::Received, edge.value, now)
    }

    /// The letter in hand was served to all its in-edges.
    fn free(&self) -> Acted
        ensures { Makes Row.Free no_view self.now result }
    {
        let mut now = self.course;
        now.hand = None;
        Acted {
            action: Action::Free,
            course: now,
        }
    }

    /// The first letter of the queue is taken in hand.
    fn take_letter(&self, view: &SwitchView) -> Acted
        ensures { Makes Row.Take view.now self.now result }
    {
        let mut now = self.course;
        now.hand = Some(Hand {
            key: view.key.unwrap_or(0),
            served: 0,
        });
        Acted {
            action: Action::Recv,
            course: now,
        }
    }

    /// The next in-edge of the letter in hand.
    fn next_edge(&self) -> Option<InEdge>
        ensures value { result ≡ next_edge self.now }
        ensures there { IfSome result (λ e. e.device < length self.now.devices) }
        ensures more { IfSome result (λ _. ForSome self.now.course.hand (λ h. h.served + 1 < 2 ^ 64)) }
    {
        let hand = self.course.hand?;
        let edges = self.in_edges.get(hand.key as usize)?;
        if hand.served >= edges.len() {
            return None;
        }
        Some(edges[hand.served])
    }

    /// The same softswitch.
    pub fn copy(&self) -> Result<Switch, AllocError>
        ensures { IfOk result (λ s. s ≡ self.now) }
    {
        let devices = copy_devices(&self.devices)?;
        let in_edges = copy_edges(&self.in_edges)?;
        let ready = self.ready.copy()?;
        Ok(Switch {
            devices,
            in_edges,
            ready,
            course: self.course,
        })
    }

    /// Whether two softswitches are equal, but for spare room.
    pub fn same(&self, other: &Switch) -> bool
        ensures { IsTrue result ↔ (self.now ≡ other.now) }
    {
        same_devices(&self.devices, &other.devices)
            && same_edges(&self.in_edges, &other.in_edges)
            && self.ready.same(&other.ready)
            && same_course(&self.course, &other.course)
    }
}

/// The call of a handler that is for no pin and no edge.
fn call_of(entry: Entry, device: u32) -> Call
    ensures { result ≡ call_of entry device }
{
    Call {
        entry,
        device,
        pin: 0,
        in_edge: 0,
    }
}

/// One in-edge more of the letter in hand is served.
fn served_more(hand: Option<Hand>) -> Option<Hand>
    requires { ForSome hand (λ h. h.served + 1 < 2 ^ 64) }
    ensures { result ≡ served_more hand }
{
    match hand {
        Some(hand) => Some(Hand {
            key: hand.key,
            served: hand.served + 1,
        }),
        None => None,
    }
}

/// Takes the readiness that a handler returned.
fn take_ready(ready: &mut Ready, back: Option<Call>, view: &SwitchView)
    requires { ForSome back (λ call. call.device < length ready.old.marks) }
    ensures { ready.new ≡ taken_ready back view.now ready.old }
{
    let Some(call) = back else {
        return;
    };
    match call.entry {
        Entry::Init | Entry::Recv => ready.put(call.device, view.a0, false),
        Entry::Send => ready.put(call.device, view.a0, true),
        Entry::Step => {
            ready.put(call.device, view.a0, false);
            ready.put_active(call.device, view.a1 != 0);
        }
        Entry::Finish => {}
    }
}

/// The same devices.
fn copy_devices(devices: &Vec<Device>) -> Result<Vec<Device>, AllocError>
    ensures { IfOk result (λ r. r.items ≡ devices.now.items) }
{
    let mut all = Vec::with_capacity(devices.allocator().clone()?, devices.len())?;
    for device in devices {
        all.push(device.copy()?)?;
    }
    Ok(all)
}

/// The same in-edges.
fn copy_edges(lists: &Vec<Vec<InEdge>>) -> Result<Vec<Vec<InEdge>>, AllocError>
    ensures { IfOk result (λ r. map (λ v. v.items) r.items ≡ map (λ v. v.items) lists.now.items) }
{
    let mut all = Vec::with_capacity(lists.allocator().clone()?, lists.len())?;
    for list in lists {
        all.push(copy_list(list)?)?;
    }
    Ok(all)
}

/// The same in-edges of one key.
fn copy_list(list: &Vec<InEdge>) -> Result<Vec<InEdge>, AllocError>
    ensures { IfOk result (λ r. r.items ≡ list.now.items) }
{
    list.clone()
}

/// Whether the devices are equal, and in the same order.
fn same_devices(a: &[Device], b: &[Device]) -> bool
    ensures { IsTrue result ↔ (a.now ≡ b.now) }
{
    if a.len() != b.len() {
        return false;
    }
    for i in 0..a.len() {
        if !a[i].same(&b[i]) {
            return false;
        }
    }
    true
}

/// Whether the lists hold equal in-edges in the same order.
fn same_edges(a: &Vec<Vec<InEdge>>, b: &Vec<Vec<InEdge>>) -> bool
    ensures { IsTrue result ↔ (map (λ v. v.items) a.now.items ≡ map (λ v. v.items) b.now.items) }
{
    if a.len() != b.len() {
        return false;
    }
    for i in 0..a.len() {
        if !same_list(&a[i], &b[i]) {
            return false;
        }
    }
    true
}

/// Whether the in-edges are equal, and in the same order.
fn same_list(a: &[InEdge], b: &[InEdge]) -> bool
    ensures { IsTrue result ↔ (a.now ≡ b.now) }
{
    if a.len() != b.len() {
        return false;
    }
    for i in 0..a.len() {
        if a[i] != b[i] {
            return false;
        }
    }
    true
}

/// Whether both have come equally far.
fn same_course(a: &Course, b: &Course) -> bool
    ensures { IsTrue result ↔ (a.now ≡ b.now) }
{
    same_call(&a.call, &b.call)
        && a.entered == b.entered
        && a.due == b.due
        && same_hand(&a.hand, &b.hand)
        && a.begun == b.begun
        && a.stepped == b.stepped
        && a.finished == b.finished
}

/// Whether both are the same call, or none.
fn same_call(a: &Option<Call>, b: &Option<Call>) -> bool
    ensures { IsTrue result ↔ (a.now ≡ b.now) }
{
    match (a, b) {
        (Some(a), Some(b)) => *a == *b,
        (None, None) => true,
        _ => false,
    }
}

/// Whether both are the same letter in hand, or none.
fn same_hand(a: &Option<Hand>, b: &Option<Hand>) -> bool
    ensures { IsTrue result ↔ (a.now ≡ b.now) }
{
    match (a, b) {
        (Some(a), Some(b)) => *a == *b,
        (None, None) => true,
        _ => false,
    }
}
