//! A text on its way to a writer.

ghost use Rattle.std.specs.Prelude.{◌≡◌, [], ◌++◌, ℕ, List, Option, length, is_err, OnOk, IfErr, true, false};
ghost use Rattle.wc_device.specs.Standard.Device.{device_inner, has_failed, was_asked_again, FlushedOnce};
ghost use Rattle.wc_device.specs.Standard.Device.{FlushedBehindAll};
ghost use Rattle.wc_device.specs.declared.io_device.Device.{Device};
ghost use Rattle.wc_print.specs.Writing.Flows.{FlowsUnless, OnlyWrites};
ghost use Rattle.wc_print.specs.Standard.Printed.{text};
ghost use Rattle.wc_print.specs.Standard.Sending.{Sends};
ghost use Rattle.wc_print.specs.Standard.Printable.{IsPrintable};
ghost use Rattle.wc_print.specs.Standard.Layout.{layout};

use crate::printing::put_module;
use crate::sink::Sink;
use std::alloc::Global;
use std::io::Write;
use wc_ast::Module;
use wc_device::Device;

/// The most bytes that wait, so that they go out at once. The system takes in long pieces faster than short ones.
const ROOM: usize = 262_144;

/// Lets bytes wait behind the others, where they are few enough and there is memory for it, and answers whether they do.
#[inline(always)]
fn keep(waiting: &mut Vec<u8>, bytes: &[u8]) -> bool
    ensures kept { result ≡ true → waiting.new.items ≡ waiting.old.items ++ bytes.now }
    ensures same { result ≡ false → waiting.new.items ≡ waiting.old.items }
{
    if waiting.len().saturating_add(bytes.len()) > ROOM {
        return false;
    }
    waiting.extend_from_slice(bytes).is_ok()
}

/// Sends bytes behind so many that went out, unless the writer failed, and tells how many went out then.
fn send_behind<W: Write>(device: &mut Device<W>, sent: u64, bytes: &[u8]) -> u64
    ensures flows { (first : Option (List ℕ)) (said : List ℕ)
        → FlowsUnless (has_failed device.old) first (W.contents (device_inner device.old)) sent bytes.now said
        → FlowsUnless (has_failed device.new) first (W.contents (device_inner device.new)) result [] said }
    ensures calls { (first : Device W) → OnlyWrites first device.old sent → OnlyWrites first device.new result }
{
    if device.failed() {
        return sent;
    }
    match device.write_behind(sent, bytes) {
        Ok(all) => all,
        Err(some) => some,
    }
}

/// A writer, how many bytes went out to it, and those that wait for their turn. They wait where there is memory for it,
/// and else go out at once. Where the writer fails, what waits is lost, and so is what follows.
#[derive(Drop)]
pub struct Outlet<'a, W> {
    device: &'a mut Device<W>,
    sent: u64,
    waiting: &'a mut Vec<u8>,
}

impl<'a, W: Write> Outlet<'a, W> {
    ghost use Rattle.std.specs.Prelude.{◌≡◌, ℕ, List, [], length, is_err, OnOk, IfErr};
    ghost use Rattle.wc_device.specs.Standard.Device.{device_inner, has_failed, was_asked_again, FlushedOnce};
    ghost use Rattle.wc_device.specs.Standard.Device.{FlushedBehindAll};
    ghost use Rattle.wc_print.specs.declared.outlet.Outlet.{Outlet};
    ghost use Rattle.wc_print.specs.Standard.Going.{Says};
    ghost use Rattle.wc_print.specs.Standard.Sending.{Sends};
    ghost use Rattle.wc_print.specs.Writing.Outlet.{HasSent};

    /// An outlet to a writer that didn't fail, before anything is put.
    #[inline(always)]
    fn new(device: &'a mut Device<W>, waiting: &'a mut Vec<u8>) -> Outlet<'a, W>
        requires writer { has_failed device.old ≡ false }
        requires none { waiting.old.items ≡ [] }
        ensures begun { HasSent W.contents result result [] }
        ensures writer { result.device.now ≡ device.old }
        ensures same { result.device.ghost_name ≡ device.entry.ghost_name }
    {
        Outlet {
            device,
            sent: 0,
            waiting,
        }
    }

    /// Sends those that wait.
    fn empty(&mut self)
        ensures none { self.new.waiting.now.items ≡ [] }
        ensures says { Says (HasSent W.contents) [] self.old self.new }
        ensures same { self.new.device.ghost_name ≡ self.old.device.ghost_name }
    {
        self.sent = send_behind(self.device, self.sent, self.waiting.as_slice());
        self.waiting.clear();
    }

    /// Puts bytes that have no room behind those that wait, which go out first.
    #[inline(never)]
    fn put_behind(&mut self, bytes: &[u8])
        ensures { Says (HasSent W.contents) bytes.now self.old self.new }
    {
        self.empty();
        if !keep(self.waiting, bytes) {
            self.sent = send_behind(self.device, self.sent, bytes);
        }
    }

    /// Sends those that wait, and flushes, unless the writer failed. It tells how many bytes went out.
    fn finish(&mut self) -> Result<u64, u64>
        ensures sent { (first : Outlet W) (said : List ℕ) → HasSent W.contents first self.old said
            → Sends (W.contents (device_inner first.device.now)) (W.contents (device_inner self.new.device.now))
            said result }
        ensures again { (first : Outlet W) (said : List ℕ) → HasSent W.contents first self.old said
            → was_asked_again self.new.device.now ≡ was_asked_again first.device.now }
        ensures flushed { (first : Outlet W) (said : List ℕ) → HasSent W.contents first self.old said
            → OnOk result (FlushedOnce first.device.now self.new.device.now) }
        ensures flushed_behind_all { (first : Outlet W) (said : List ℕ) → HasSent W.contents first self.old said
            → IfErr result (λ n. FlushedBehindAll n (length said) first.device.now self.new.device.now) }
        ensures failed { is_err result ≡ has_failed self.new.device.now }
        ensures same { self.new.device.ghost_name ≡ self.old.device.ghost_name }
    {
        self.empty();
        if self.device.failed() {
            return Err(self.sent);
        }
        match self.device.flush() {
            Ok(()) => Ok(self.sent),
            Err(_) => Err(self.sent),
        }
    }
}

impl<W: Write> Sink for Outlet<'_, W> {
    ghost use Rattle.wc_print.specs.Writing.Outlet.{HasSent};

    ghost Has = { HasSent W.contents };

    #[inline(always)]
    fn put(&mut self, bytes: &[u8]) {
        if !keep(self.waiting, bytes) {
            self.put_behind(bytes);
        }
    }
}

/// Writes the text of a module, as `print` gives it, and flushes once. It goes out in pieces, which take less than a
/// MiB of memory; where there is less, they are shorter, and want of memory is no failure.
///
/// # Errors
/// How many bytes of the text went out before a write failed, or all of them where the flush did. Nothing is tried
/// again.
pub fn print_to<W: Write>(alloc: Global, w: &mut Device<W>, module: &Module) -> Result<u64, u64>
    requires { has_failed w.old ≡ false }
    ensures sends { Sends (W.contents (device_inner w.old)) (W.contents (device_inner w.new))
        (text (layout «module».now)) result }
    ensures failed { is_err result ≡ has_failed w.new }
    ensures again { was_asked_again w.new ≡ was_asked_again w.old }
    ensures flushed { OnOk result (FlushedOnce w.old w.new) }
    ensures flushed_behind_all { IfErr result
        (λ n. FlushedBehindAll n (length (text (layout «module».now))) w.old w.new) }
    ensures printable { IsPrintable (layout «module».now) }
{
    let mut waiting = Vec::new(alloc);
    let mut out = Outlet::new(w, &mut waiting);
    put_module(&mut out, module);
    out.finish()
}
