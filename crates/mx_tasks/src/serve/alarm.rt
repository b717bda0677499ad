//! What is said when the store of the books fails.
ghost use Rattle.std.specs.Prelude.{◌≡◌, true, false};
ghost use Rattle.std.specs.Io.{WritesAtMost};
ghost use Rattle.std.specs.Io.KnownBytes.{Appends, Keeps, WriteAppends};
ghost use Rattle.mx_tasks.specs.Voices.{RingsOnce, alarm_line, shut_line};

use crate::voice::Voice;
use mx_desk::Outlet;
use std::io;
use std::io::Write;

/// Says once that the store of the books has failed.
#[derive(Drop)]
pub struct Alarm<V> {
    voice: V,
    has_rung: bool,
}

impl<V: Voice> Alarm<V> {
    /// An alarm that hasn't rung.
    pub fn new(voice: V) -> Alarm<V>
        ensures voice { result.voice ≡ voice }
        ensures silent { result.has_rung ≡ false }
    {
        Alarm {
            voice,
            has_rung: false,
        }
    }

    /// Says it, where it hasn't been said yet.
    pub fn ring(&mut self)
        ensures first { self.old.has_rung ≡ false
            → Appends (V.said self.old.voice) (V.said self.new.voice) alarm_line }
        ensures once { self.old.has_rung ≡ true → self.new.voice ≡ self.old.voice }
        ensures rung { self.new.has_rung ≡ true }
        ensures rings { RingsOnce V.said self.old self.new }
    {
        if !self.has_rung {
            self.has_rung = true;
            self.voice.say(
                "store: the disk is full or the file is damaged; requests are answered 503\n",
            );
        }
    }

    /// Says that the store is shut.
    pub fn say_shut(&mut self)
        ensures said { Appends (V.said self.old.voice) (V.said self.new.voice) shut_line }
        ensures rung { self.new.has_rung ≡ self.old.has_rung }
    {
        self.voice.say(
            "store: a write or a sync of the file failed; no more requests are answered\n",
        );
    }
}

/// A writer of responses over the books in a file. An alarm rings when their store fails.
#[derive(Drop)]
pub struct Alarmed<'a, W, V> {
    writer: W,
    alarm: &'a mut Alarm<V>,
}

impl<'a, W, V> Alarmed<'a, W, V> {
    /// The writer with its alarm.
    pub fn new(writer: W, alarm: &'a mut Alarm<V>) -> Alarmed<'a, W, V> {
        Alarmed { writer, alarm }
    }
}

impl<W: Write, V> Write for Alarmed<'_, W, V> {
    ghost contents = { λ alarmed. W.contents alarmed.writer };

    fn write(&mut self, buf: &[u8]) -> io::Result<usize>
        ensures bound { WritesAtMost result buf.now }
        ensures bytes { WriteAppends (W.contents self.old.writer) (W.contents self.new.writer)
            result buf.now }
        ensures quiet { self.new.alarm.now ≡ self.old.alarm.now }
    {
        self.writer.write(buf)
    }

    fn flush(&mut self) -> io::Result<()>
        ensures bytes { Keeps (W.contents self.old.writer) (W.contents self.new.writer) }
        ensures quiet { self.new.alarm.now ≡ self.old.alarm.now }
    {
        self.writer.flush()
    }
}

impl<W: Write, V: Voice> Outlet for Alarmed<'_, W, V> {
    fn store_failed(&mut self)
        ensures bytes { Keeps (W.contents self.old.writer) (W.contents self.new.writer) }
        ensures rung { self.new.alarm.now.has_rung ≡ true }
        ensures first { self.old.alarm.now.has_rung ≡ false
            → Appends (V.said self.old.alarm.now.voice)
            (V.said self.new.alarm.now.voice) alarm_line }
        ensures once { self.old.alarm.now.has_rung ≡ true
            → self.new.alarm.now.voice ≡ self.old.alarm.now.voice }
    {
        self.alarm.ring();
    }
}
